ghost use Rattle.std.specs.Prelude.{◌≡◌};
ghost use Rattle.std.specs.Option.{option_copied};
ghost use Rattle.ask_pairs.specs.Access.{access_by, access_of};

use crate::credentials::has_replacement;
use crate::pairs::{Pair, has, value_of};
use crate::place::Place;
use asks::Access;
use sha2::{Digest, Sha256};

/// Access by this key: any text of UTF-8 is one.
fn access_by(key: Option<&[u8]>) -> Result<Access, Place>
    ensures { result ≡ access_by (option_copied key.entry) }
{
    match key {
        Some(key) if !has_replacement(key) => Ok(Access::Key(Sha256::digest(key))),
        _ => Err(Place::Key),
    }
}

/// How an administrator comes in. Scripts and the command line need no key; other asks bring one,
/// and an absent one counts as the empty one.
pub fn access_of(local: bool, pairs: &[Pair]) -> Result<Access, Place>
    ensures access { result ≡ access_of local pairs.now }
{
    if local {
        Ok(Access::Local)
    } else if has(pairs, b"key") {
        access_by(value_of(pairs, b"key"))
    } else {
        access_by(Some(&[]))
    }
}
