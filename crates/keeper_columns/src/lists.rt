ghost use Rattle.std.specs.Prelude.{◌≡◌, ℕ, List, Option, Bool, map, IfOk};
ghost use Rattle.keeper_columns.specs.Lists.{parts_of, read_all, is_first, are_ascending, list_in};

use login_base::{Memory, Sequence};
use std::alloc::Global;

/// What a text can list.
pub trait ListItem: Sized {
    ghost item: { List ℕ → Option Self };

    ghost before: { Self → Self → Bool };

    /// What the text between two commas says, or none where it is no item.
    fn read(alloc: Global, text: &[u8]) -> Result<Option<Self>, Memory>
        ensures ok { IfOk result (λ r. r ≡ item text.now) };

    /// Whether the item stands before another one in a list.
    fn is_before(&self, other: &Self) -> bool
        ensures value { result ≡ before self.now other.now };
}

/// The texts between the commas.
fn parts_of<'a>(alloc: Global, text: &'a [u8]) -> Result<Vec<&'a [u8]>, Memory>
    ensures { IfOk result (λ v. map (λ part. part.now) v.items ≡ parts_of text.now) }
{
    if text.is_empty() {
        return Ok(Vec::new(alloc));
    }
    Ok(text.split(|b| *b == b',').collect(alloc)?)
}

/// What the parts say, or none where one of them says nothing.
fn read_all<T: ListItem + Drop>(
    alloc: Global,
    parts: &[&[u8]],
) -> Result<Option<Sequence<T>>, Memory>
    ensures { IfOk result (λ r. r ≡ read_all T.item (map (λ part. part.now) parts.now)) }
{
    let mut items = Vec::new(alloc);
    for part in parts {
        match T::read(alloc, part)? {
            Some(item) => items.push(item)?,
            None => return Ok(None),
        }
    }
    Ok(Some(Sequence::from_vec(items)))
}

/// Whether the item stands before the first of these.
fn is_first<T: ListItem>(item: &T, items: &[T]) -> bool
    ensures { result ≡ is_first T.before item.now items.now }
{
    match items {
        [] => true,
        [next, ..] => item.is_before(next),
    }
}

/// Whether each item stands before the next one.
#[tactic(auto, unfolding(crate::specs::Lists::are_ascending))]
fn are_ascending<T: ListItem>(items: &[T]) -> bool
    ensures { result ≡ are_ascending T.before items.now }
{
    let mut rest = items;
    while let [item, others @ ..] = rest {
        if !is_first(item, others) {
            return false;
        }
        rest = others;
    }
    true
}

/// The items that a text lists, joined by commas, each before the next one; or none where it
/// lists no such items.
#[tactic(auto, unfolding(crate::specs::Lists::list_in))]
pub fn read_list<T: ListItem + Drop>(
    alloc: Global,
    text: &[u8],
) -> Result<Option<Sequence<T>>, Memory>
    ensures ok { IfOk result (λ items. items ≡ list_in T.item T.before text.now) }
{
    let parts = parts_of(alloc, text)?;
    match read_all::<T>(alloc, parts.as_slice())? {
        Some(items) if are_ascending(items.as_slice()) => Ok(Some(items)),
        _ => Ok(None),
    }
}
