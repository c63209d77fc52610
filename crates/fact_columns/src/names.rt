ghost use Rattle.std.specs.Prelude.{◌≡◌, IfOk};
ghost use Rattle.login_base.specs.IdText.{id_bytes};

use keeper_rows::Text;
use login_base::{Id, Memory, Name, id_text};
use std::alloc::Global;
use std::str::from_utf8;

/// The name as text.
#[tactic(auto, using(crate::proofs::NameLemmas::name_rules))]
pub(crate) fn name_str(name: &Name) -> &str
    ensures { result.now ≡ name.now }
{
    match from_utf8(name.as_bytes()) {
        Ok(text) => text,
        Err(_) => unreachable!(),
    }
}

/// A name as a column holds it.
pub fn name_text(alloc: Global, name: &Name) -> Result<Text, Memory>
    ensures ok { IfOk result (λ text. text ≡ name.now) }
{
    Text::new(alloc, name_str(name))
}

/// The text of an id: 16 small hexadecimal digits of the serial, a dot, and 32 of the two draws.
pub fn id_column(alloc: Global, id: &Id) -> Result<Text, Memory>
    ensures ok { IfOk result (λ text. text ≡ id_bytes id.now) }
{
    match from_utf8(&id_text(id)) {
        Ok(text) => Text::new(alloc, text),
        Err(_) => unreachable!(),
    }
}
