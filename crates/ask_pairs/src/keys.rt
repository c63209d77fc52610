ghost use Rattle.std.specs.Prelude.{◌≡◌};
ghost use Rattle.std.specs.Option.{option_copied};
ghost use Rattle.ask_pairs.specs.Keys.{root_of, root_from, root_given, id_given};

use crate::pairs::{Pair, has, value_of};
use crate::place::Place;
use login_base::{Id, RootKey, read_id};

/// The root of this text, or none where it is no id's text.
pub fn root_of(text: &[u8]) -> Option<RootKey>
    ensures root { result ≡ root_of text.now }
{
    match read_id(text) {
        Some(id) => Some(RootKey(id)),
        None => None,
    }
}

/// A root: one outside the grammar counts as absent, and two are malformed.
fn root_from(value: Option<&[u8]>) -> Result<Option<RootKey>, Place>
    ensures { result ≡ root_from (option_copied value.entry) }
{
    match value {
        Some(value) => Ok(root_of(value)),
        None => Err(Place::Root),
    }
}

/// A root may be given.
pub fn root_given(pairs: &[Pair]) -> Result<Option<RootKey>, Place>
    ensures root { result ≡ root_given pairs.now }
{
    if has(pairs, b"root") {
        root_from(value_of(pairs, b"root"))
    } else {
        Ok(None)
    }
}

/// An id is given at this place.
pub fn id_given(place: Place, pairs: &[Pair]) -> Result<Id, Place>
    ensures id { result ≡ id_given place pairs.now }
{
    match value_of(pairs, place.text()) {
        Some(value) => match read_id(value) {
            Some(id) => Ok(id),
            None => Err(place),
        },
        None => Err(place),
    }
}
