ghost use Rattle.std.specs.Prelude.{◌≡◌, IfOk};
ghost use Rattle.std.specs.Char.{is_ascii_alphanumeric};
ghost use Rattle.std.specs.List.{list_all};
ghost use Rattle.std.specs.Option.{option_copied};
ghost use Rattle.ask_pairs.specs.Credentials.{exact_name, user_name, has_replacement, is_password, password_text, is_code_value, code_value};

use login_base::{Memory, Name, Sequence, read_name};
use std::alloc::Global;

/// The most bytes of a password.
const MOST_PASSWORD: usize = 256;

/// The most letters and digits of a one-time or recovery code.
const MOST_CODE: usize = 32;

/// The character that stands where bytes weren't UTF-8, in UTF-8.
const REPLACEMENT: [u8; 3] = [0xef, 0xbf, 0xbd];

/// A name as it is written, whose capitals aren't read as small letters.
pub fn exact_name(alloc: Global, value: Option<&[u8]>) -> Result<Option<Name>, Memory>
    ensures name { IfOk result (λ name. name ≡ exact_name (option_copied value.entry)) }
{
    match value {
        Some(value) => read_name(alloc, value),
        None => Ok(None),
    }
}

/// The name of a user, whose capitals are read as small letters.
pub fn user_name(alloc: Global, value: Option<&[u8]>) -> Result<Option<Name>, Memory>
    ensures { IfOk result (λ name. name ≡ user_name (option_copied value.entry)) }
{
    match value {
        Some(value) => {
            let text = value.to_ascii_lowercase(alloc)?;
            read_name(alloc, text.as_slice())
        }
        None => Ok(None),
    }
}

/// Whether the character U+FFFD stands somewhere in the text.
#[tactic(auto, unfolding(crate::specs::Credentials::has_replacement))]
pub fn has_replacement(text: &[u8]) -> bool
    ensures value { result ≡ has_replacement text.now }
{
    let mut rest = text;
    while let Some((_, more)) = rest.split_first() {
        if rest.starts_with(&REPLACEMENT) {
            return true;
        }
        rest = more;
    }
    false
}

/// Whether a text is a password: 1 to 256 bytes of UTF-8.
fn is_password(value: &[u8]) -> bool
    ensures { result ≡ is_password value.now }
{
    !value.is_empty() && value.len() <= MOST_PASSWORD && !has_replacement(value)
}

fn copy_of(alloc: Global, value: &[u8]) -> Result<Sequence<u8>, Memory>
    ensures copy { IfOk result (λ copy. copy ≡ value.now) }
{
    Ok(Sequence::from_vec(Vec::from_slice(alloc, value)?))
}

/// A copy of a password, where it is well-formed.
pub fn password_text(alloc: Global, value: Option<&[u8]>) -> Result<Option<Sequence<u8>>, Memory>
    ensures password { IfOk result (λ password. password ≡ password_text (option_copied value.entry)) }
{
    match value {
        Some(value) if is_password(value) => Ok(Some(copy_of(alloc, value)?)),
        _ => Ok(None),
    }
}

fn is_code_byte(b: u8) -> bool
    ensures { result ≡ is_ascii_alphanumeric b }
{
    b.is_ascii_alphanumeric()
}

fn has_code_bytes(value: &[u8]) -> bool
    ensures { result ≡ list_all is_ascii_alphanumeric value.now }
{
    value.iter().all(|b| is_code_byte(*b))
}

/// Whether a text can be a one-time or recovery code: 1 to 32 ASCII letters or digits.
fn is_code_value(value: &[u8]) -> bool
    ensures { result ≡ is_code_value value.now }
{
    !value.is_empty() && value.len() <= MOST_CODE && has_code_bytes(value)
}

/// A copy of a one-time or recovery code, where it is well-formed.
pub fn code_value(alloc: Global, value: Option<&[u8]>) -> Result<Option<Sequence<u8>>, Memory>
    ensures code { IfOk result (λ code. code ≡ code_value (option_copied value.entry)) }
{
    match value {
        Some(value) if is_code_value(value) => Ok(Some(copy_of(alloc, value)?)),
        _ => Ok(None),
    }
}
