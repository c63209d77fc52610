ghost use Rattle.std.specs.Prelude.{◌≡◌, ◌↔◌, IsTrue, IfOk, Some, None, if◌then◌else◌};
ghost use Rattle.std.specs.List.{list_all};
ghost use Rattle.login_base.specs.Names.{is_name, is_name_byte, is_first_byte};

use crate::memory::Memory;
use std::alloc::Global;
use std::marker::Model;

/// A name: 1 to 64 bytes, of which the first is a small letter or a digit, and each other one a
/// small letter, a digit, `.`, `_`, `@` or `-`.
#[derive(Debug, Drop)]
pub struct Name {
    bytes: Vec<u8>,
}

impl Model for Name {
    ghost use Rattle.std.specs.Prelude.{List, ℕ, IsTrue};
    ghost use Rattle.login_base.specs.Names.{is_name};

    ghost Value = { List ℕ };

    ghost view = { λ n. n.bytes.items };

    ghost invariant = { λ n. IsTrue (is_name n.bytes.items) };
}

impl Name {
    pub fn as_bytes(&self) -> &[u8]
        ensures bytes { result.now ≡ self.now }
        ensures name { IsTrue (is_name self.now) }
    {
        self.bytes.as_slice()
    }

    /// The name of a text that is known to be one.
    pub fn known(alloc: Global, text: &[u8]) -> Result<Name, Memory>
        requires name { IsTrue (is_name text.now) }
        ensures ok { IfOk result (λ n. n ≡ text.now) }
    {
        let bytes = Vec::from_slice(alloc, text)?;
        Ok(Name { bytes })
    }
}

impl PartialEq for Name {
    ghost use Rattle.std.specs.Str.{bytes_eq};
    ghost use Rattle.std.proofs.Common.{rules};
    ghost use Rattle.std.specs.Cmp.Rules.{comparing};

    ghost eq = { bytes_eq };

    ghost laws = { Prim.search (comparing, rules) };

    fn eq(&self, other: &Name) -> bool {
        self.as_bytes() == other.as_bytes()
    }
}

impl Eq for Name {
    ghost use Rattle.std.proofs.Common.{rules};
    ghost use Rattle.std.specs.Cmp.Rules.{comparing};

    ghost laws = { Prim.search (comparing, rules) };
}

fn is_first_byte(b: u8) -> bool
    ensures { result ≡ is_first_byte b }
{
    matches!(b, b'a'..=b'z' | b'0'..=b'9')
}

fn is_name_byte(b: u8) -> bool
    ensures { result ≡ is_name_byte b }
{
    is_first_byte(b) || b == b'.' || b == b'_' || b == b'@' || b == b'-'
}

fn has_name_bytes(text: &[u8]) -> bool
    ensures { result ≡ list_all is_name_byte text.now }
{
    text.iter().all(|b| is_name_byte(*b))
}

pub fn is_name(text: &[u8]) -> bool
    ensures value { result ≡ is_name text.now }
{
    match text {
        [] => false,
        [first, ..] => text.len() <= 64 && is_first_byte(*first) && has_name_bytes(text),
    }
}

/// The name of this text, or none where it is no name.
pub fn read_name(alloc: Global, text: &[u8]) -> Result<Option<Name>, Memory>
    ensures ok { IfOk result (λ r. r ≡ (if is_name text.now then Some text.now else None)) }
{
    if !is_name(text) {
        return Ok(None);
    }
    let bytes = Vec::from_slice(alloc, text)?;
    Ok(Some(Name { bytes }))
}
