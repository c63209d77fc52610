ghost use Rattle.std.specs.Prelude.{◌≡◌};
ghost use Rattle.std.specs.Option.{option_copied};
ghost use Rattle.web_requests.specs.Fields.{is_field, has_field, first_value, says, all_say};

use crate::head::HeaderField;
use crate::texts::same_word;

/// Whether a field has this name, in any case.
pub fn is_field(field: &HeaderField, name: &[u8]) -> bool
    ensures value { result ≡ is_field name.now field.now }
{
    same_word(field.name.as_slice(), name)
}

/// Whether some field has this name.
pub fn has_field(fields: &[HeaderField], name: &[u8]) -> bool
    ensures value { result ≡ has_field name.now fields.now }
{
    fields.iter().any(|field| is_field(field, name))
}

/// The value of the first field of this name.
pub fn first_value<'a>(fields: &'a [HeaderField], name: &[u8]) -> Option<&'a [u8]>
    ensures value { option_copied result ≡ first_value name.now fields.now }
{
    match fields.iter().find(|field| is_field(field, name)) {
        Some(field) => Some(field.value.as_slice()),
        None => None,
    }
}

/// Whether a field that has this name has this value.
fn says(field: &HeaderField, name: &[u8], value: &[u8]) -> bool
    ensures { result ≡ says name.now value.now field.now }
{
    !is_field(field, name) || field.value.as_slice() == value
}

/// Whether each field of this name has this value.
pub fn all_say(fields: &[HeaderField], name: &[u8], value: &[u8]) -> bool
    ensures value { result ≡ all_say name.now value.now fields.now }
{
    fields.iter().all(|field| says(field, name, value))
}
