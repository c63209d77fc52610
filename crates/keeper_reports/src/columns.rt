ghost use Rattle.std.specs.Prelude.{◌≡◌, ◌++◌, ◌∷◌, OnOk, codes, replicate};
ghost use Rattle.std.specs.Fmt.{signed_decimal};
ghost use Rattle.keeper_reports.specs.Columns.{left_in, right_in, shown};

use login_base::Memory;
use std::alloc::Global;

/// Adds bytes to a text.
pub(crate) fn add(out: &mut Vec<u8>, bytes: &[u8]) -> Result<(), Memory>
    ensures { OnOk result (out.new.items ≡ out.old.items ++ bytes.now) }
{
    out.extend_from_slice(bytes)?;
    Ok(())
}

fn add_spaces(out: &mut Vec<u8>, count: usize) -> Result<(), Memory>
    ensures { OnOk result (out.new.items ≡ out.old.items ++ replicate count 32) }
{
    for _ in 0..count {
        out.push(b' ')?;
    }
    Ok(())
}

/// Adds a text, filled up to the width behind it.
pub(crate) fn add_left(out: &mut Vec<u8>, width: usize, text: &[u8]) -> Result<(), Memory>
    ensures { OnOk result (out.new.items ≡ out.old.items ++ left_in width text.now) }
{
    add(out, text)?;
    add_spaces(out, width.saturating_sub(text.len()))
}

/// Adds a text, filled up to the width before it.
fn add_right(out: &mut Vec<u8>, width: usize, text: &[u8]) -> Result<(), Memory>
    ensures { OnOk result (out.new.items ≡ out.old.items ++ right_in width text.now) }
{
    add_spaces(out, width.saturating_sub(text.len()))?;
    add(out, text)
}

/// Adds a column that is filled up behind its text, after a space.
pub(crate) fn add_next_left(out: &mut Vec<u8>, width: usize, text: &[u8]) -> Result<(), Memory>
    ensures { OnOk result (out.new.items ≡ out.old.items ++ 32 ∷ left_in width text.now) }
{
    add(out, b" ")?;
    add_left(out, width, text)
}

/// Adds a number's column, after a space.
pub(crate) fn add_next_number(
    alloc: Global,
    out: &mut Vec<u8>,
    width: usize,
    number: &i64,
) -> Result<(), Memory>
    ensures { OnOk result (out.new.items ≡ out.old.items ++ 32 ∷ right_in width (signed_decimal number.now)) }
{
    let text = number.to_string(alloc)?;
    add(out, b" ")?;
    add_right(out, width, text.as_bytes())
}

/// Adds the last column, after a space, and ends the line.
pub(crate) fn add_last(out: &mut Vec<u8>, text: &[u8]) -> Result<(), Memory>
    ensures { OnOk result (out.new.items ≡ out.old.items ++ 32 ∷ (text.now ++ codes "\n")) }
{
    add(out, b" ")?;
    add(out, text)?;
    add(out, b"\n")
}

/// The text, or `-` for nothing.
pub(crate) fn shown(text: &[u8]) -> &[u8]
    ensures { result.now ≡ shown text.now }
{
    if text.is_empty() { b"-" } else { text }
}
