ghost use Rattle.std.specs.Prelude.{◌≡◌, IfOk, map};
ghost use Rattle.web_requests.specs.Cookies.{first_some, root_pair, part_root, parts, field_root, or_absent, root_cookie};

use crate::fields::is_field;
use crate::head::HeaderField;
use crate::texts::trim_spaces;
use ask_pairs::root_of;
use login_base::{Memory, RootKey};
use std::alloc::Global;

/// The root of a pair that is named so: none where it is outside the grammar.
fn root_pair(pair: &[u8]) -> Option<Option<RootKey>>
    ensures { result ≡ root_pair pair.now }
{
    if pair.starts_with(b"root=") {
        Some(root_of(&pair[5..]))
    } else {
        None
    }
}

/// The same of a pair with spaces round it.
fn part_root(part: &[u8]) -> Option<Option<RootKey>>
    ensures { result ≡ part_root part.now }
{
    root_pair(trim_spaces(part))
}

/// The texts between each `;`.
fn parts(alloc: Global, value: &[u8]) -> Result<Vec<&[u8]>, Memory>
    ensures parts { IfOk result (λ list. map (λ part. part.now) list.items ≡ parts value.now) }
{
    Ok(value.split(|b| *b == b';').collect(alloc)?)
}

/// What the first pair named `root` says.
fn parts_root(parts: &[&[u8]]) -> Option<Option<RootKey>>
    ensures root { result ≡ first_some part_root (map (λ part. part.now) parts.now) }
{
    for part in parts {
        let root = part_root(part);
        if root.is_some() {
            return root;
        }
    }
    None
}

fn field_root(alloc: Global, field: &HeaderField) -> Result<Option<Option<RootKey>>, Memory>
    ensures root { IfOk result (λ root. root ≡ field_root field.now) }
{
    if is_field(field, b"cookie") {
        let parts = parts(alloc, field.value.as_slice())?;
        Ok(parts_root(parts.as_slice()))
    } else {
        Ok(None)
    }
}

fn fields_root(alloc: Global, fields: &[HeaderField]) -> Result<Option<Option<RootKey>>, Memory>
    ensures root { IfOk result (λ root. root ≡ first_some field_root fields.now) }
{
    for field in fields {
        let root = field_root(alloc, field)?;
        if root.is_some() {
            return Ok(root);
        }
    }
    Ok(None)
}

/// The root of the first pair named `root` in the Cookie fields.
pub fn root_cookie(alloc: Global, fields: &[HeaderField]) -> Result<Option<RootKey>, Memory>
    ensures root { IfOk result (λ root. root ≡ root_cookie fields.now) }
{
    match fields_root(alloc, fields)? {
        Some(root) => Ok(root),
        None => Ok(None),
    }
}
