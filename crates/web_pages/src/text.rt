ghost use Rattle.std.specs.Prelude.{◌≡◌, ◌++◌, OnOk};

use login_base::Memory;

/// Adds bytes to a text.
pub fn add(out: &mut Vec<u8>, bytes: &[u8]) -> Result<(), Memory>
    ensures text { OnOk result (out.new.items ≡ out.old.items ++ bytes.now) }
{
    out.extend_from_slice(bytes)?;
    Ok(())
}

/// Adds three texts, one after the other.
pub fn add_three(out: &mut Vec<u8>, first: &[u8], second: &[u8], third: &[u8]) -> Result<(), Memory>
    ensures text { OnOk result (out.new.items ≡ out.old.items ++ (first.now ++ second.now ++ third.now)) }
{
    add(out, first)?;
    add(out, second)?;
    add(out, third)
}
