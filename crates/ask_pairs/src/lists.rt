ghost use Rattle.std.specs.Prelude.{◌≡◌, IfOk, map};
ghost use Rattle.ask_pairs.specs.Lists.{parts, joined};
ghost use Rattle.realm_fields.specs.Words.{action_of, name_of};

use login_base::{Memory, Name, Sequence, read_name};
use realm_data::Action;
use realm_fields::action_of;
use std::alloc::Global;

/// What can stand in a list.
pub trait Item: Sized {
    ghost use Rattle.std.specs.Prelude.{List, ℕ, Option};

    /// What the text of an item says, or none where it is outside the grammar.
    ghost meant: { List ℕ → Option Self };

    fn read(alloc: Global, text: &[u8]) -> Result<Option<Self>, Memory>
        ensures item { IfOk result (λ item. item ≡ meant text.now) };
}

impl Item for Name {
    ghost use Rattle.realm_fields.specs.Words.{name_of};

    ghost meant = { name_of };

    fn read(alloc: Global, text: &[u8]) -> Result<Option<Name>, Memory> {
        read_name(alloc, text)
    }
}

impl Item for Action {
    ghost use Rattle.realm_fields.specs.Words.{action_of};

    ghost meant = { action_of };

    fn read(_alloc: Global, text: &[u8]) -> Result<Option<Action>, Memory> {
        Ok(action_of(text))
    }
}

/// The texts between the commas.
fn parts(alloc: Global, text: &[u8]) -> Result<Vec<&[u8]>, Memory>
    ensures parts { IfOk result (λ list. map (λ part. part.now) list.items ≡ parts text.now) }
{
    Ok(text.split(|b| *b == b',').collect(alloc)?)
}

/// The items of a text that has them joined by commas, or none where one is outside its grammar.
pub fn joined<T: Item + Drop>(alloc: Global, text: &[u8]) -> Result<Option<Sequence<T>>, Memory>
    ensures items { IfOk result (λ items. items ≡ joined T.meant text.now) }
{
    let parts = parts(alloc, text)?;
    let mut items = Sequence::new(alloc);
    for part in &parts {
        match T::read(alloc, part)? {
            Some(item) => items.push(item)?,
            None => return Ok(None),
        }
    }
    Ok(Some(items))
}
