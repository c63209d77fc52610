ghost use Rattle.std.specs.Prelude.{◌≡◌, IfOk, IsTrue};
ghost use Rattle.asks.specs.declared.ask.Ask.TheVariants as asks;
ghost use Rattle.login_base.specs.Names.{is_name};
ghost use Rattle.ask_pairs.specs.Places.{place_text, ask_or_bad, optional, items_or_none};

use crate::pairs::{Pair, has};
use asks::Ask;
use login_base::{Memory, Name, Sequence};
use std::alloc::Global;

/// Where an ask is malformed: at its verb, at the form of a post, or at the pair of this name.
#[derive(Clone, Copy, Debug, PartialEq, Eq)]
pub enum Place {
    Verb,
    Client,
    Acr,
    Root,
    Tab,
    Code,
    Key,
    Form,
    Execution,
    Name,
    Password,
    Value,
    Action,
    Otp,
    Secret,
    Roles,
    Actions,
    Life,
    Session,
    Text,
}

impl Place {
    /// The text of a place, which is the name of its pair.
    pub fn text(self) -> &'static [u8]
        ensures text { result.now ≡ place_text self }
        ensures name { IsTrue (is_name result.now) }
    {
        match self {
            Place::Verb => b"verb",
            Place::Client => b"client",
            Place::Acr => b"acr",
            Place::Root => b"root",
            Place::Tab => b"tab",
            Place::Code => b"code",
            Place::Key => b"key",
            Place::Form => b"form",
            Place::Execution => b"execution",
            Place::Name => b"name",
            Place::Password => b"password",
            Place::Value => b"value",
            Place::Action => b"action",
            Place::Otp => b"otp",
            Place::Secret => b"secret",
            Place::Roles => b"roles",
            Place::Actions => b"actions",
            Place::Life => b"life",
            Place::Session => b"session",
            Place::Text => b"text",
        }
    }
}

/// An ask that is malformed at this place.
pub fn bad(alloc: Global, place: Place) -> Result<Ask, Memory>
    ensures ask { IfOk result (λ ask. ask ≡ asks.Bad (place_text place)) }
{
    let at = Name::known(alloc, place.text())?;
    Ok(Ask::Bad { at })
}

/// The ask that was read, or a malformed one.
pub fn ask_or_bad(alloc: Global, read: Result<Ask, Place>) -> Result<Ask, Memory>
    ensures ask { IfOk result (λ ask. ask ≡ ask_or_bad read) }
{
    match read {
        Ok(ask) => Ok(ask),
        Err(place) => bad(alloc, place),
    }
}

/// What a pair says that may be there: `read` is none where it isn't there, is doubled, or is
/// outside its grammar.
pub fn optional<T: Drop>(place: Place, pairs: &[Pair], read: Option<T>) -> Result<Option<T>, Place>
    ensures value { result ≡ optional place pairs.now read }
{
    if has(pairs, place.text()) {
        match read {
            Some(value) => Ok(Some(value)),
            None => Err(place),
        }
    } else {
        Ok(None)
    }
}

/// The items of an optional list, none where the pair isn't there.
pub fn items_or_none<T: Drop>(
    alloc: Global,
    items: Result<Option<Sequence<T>>, Place>,
) -> Result<Sequence<T>, Place>
    ensures items { result ≡ items_or_none items }
{
    match items {
        Ok(Some(items)) => Ok(items),
        Ok(None) => Ok(Sequence::new(alloc)),
        Err(place) => Err(place),
    }
}
