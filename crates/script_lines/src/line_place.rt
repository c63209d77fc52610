ghost use Rattle.std.specs.Prelude.{◌≡◌, IfOk, IsTrue};
ghost use Rattle.asks.specs.declared.ask.Ask.TheVariants as asks;
ghost use Rattle.login_base.specs.Names.{is_name};
ghost use Rattle.script_lines.specs.LinePlaces.{line_place_text};

use asks::Ask;
use login_base::{Memory, Name};
use std::alloc::Global;

/// Where a line is malformed, besides its pairs.
#[derive(Clone, Copy, Debug, PartialEq, Eq)]
pub enum LinePlace {
    Head,
    Verb,
    Handle,
}

impl LinePlace {
    /// The text of a place.
    fn text(self) -> &'static [u8]
        ensures text { result.now ≡ line_place_text self }
        ensures name { IsTrue (is_name result.now) }
    {
        match self {
            LinePlace::Head => b"head",
            LinePlace::Verb => b"verb",
            LinePlace::Handle => b"h",
        }
    }
}

/// A line that is malformed at this place.
pub fn bad_line(alloc: Global, place: LinePlace) -> Result<Ask, Memory>
    ensures ask { IfOk result (λ ask. ask ≡ asks.Bad (line_place_text place)) }
{
    let at = Name::known(alloc, place.text())?;
    Ok(Ask::Bad { at })
}
