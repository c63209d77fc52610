ghost use Rattle.std.specs.Prelude.{◌≡◌, ◌++◌, OnOk, decimal};
ghost use Rattle.login_base.specs.IdText.{id_bytes};

use login_base::{Id, Memory, id_text};
use std::alloc::Global;

/// Adds bytes to a text.
pub(crate) fn add(out: &mut Vec<u8>, bytes: &[u8]) -> Result<(), Memory>
    ensures { OnOk result (out.new.items ≡ out.old.items ++ bytes.now) }
{
    out.extend_from_slice(bytes)?;
    Ok(())
}

/// Adds a label and a value.
pub(crate) fn add_field(out: &mut Vec<u8>, label: &[u8], value: &[u8]) -> Result<(), Memory>
    ensures { OnOk result (out.new.items ≡ out.old.items ++ (label.now ++ value.now)) }
{
    add(out, label)?;
    add(out, value)
}

/// Adds two labels, each with its value.
pub(crate) fn add_fields(
    out: &mut Vec<u8>,
    label: &[u8],
    value: &[u8],
    other_label: &[u8],
    other: &[u8],
) -> Result<(), Memory>
    ensures { OnOk result (out.new.items ≡ out.old.items ++ (label.now ++ value.now ++ other_label.now ++ other.now)) }
{
    add_field(out, label, value)?;
    add_field(out, other_label, other)
}

/// Adds a label and an id.
pub(crate) fn add_id(out: &mut Vec<u8>, label: &[u8], id: &Id) -> Result<(), Memory>
    ensures { OnOk result (out.new.items ≡ out.old.items ++ (label.now ++ id_bytes id.now)) }
{
    add_field(out, label, &id_text(id))
}

/// Adds a label and a number.
pub(crate) fn add_number(
    alloc: Global,
    out: &mut Vec<u8>,
    label: &[u8],
    number: u64,
) -> Result<(), Memory>
    ensures { OnOk result (out.new.items ≡ out.old.items ++ (label.now ++ decimal number)) }
{
    let text = number.to_string(alloc)?;
    add_field(out, label, text.as_bytes())
}
