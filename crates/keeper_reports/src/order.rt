ghost use Rattle.std.specs.Prelude.{◌≡◌, ℕ, map, IfOk};
ghost use Rattle.std.specs.Ordering.{nat_cmp};
ghost use Rattle.keeper_rows.specs.Applied.{text_cmp};
ghost use Rattle.keeper_reports.specs.Order.{in_order};
ghost use Rattle.keeper_reports.specs.Reports.{serial_in};

use keeper_rows::{AccountRow, SessionRow, Text, TokenRow};
use login_base::{Memory, read_id};
use std::alloc::Global;

/// A row with an id.
pub(crate) trait Numbered {
    ghost serial: { Self → ℕ };

    fn serial(&self) -> u64
        ensures serial { result ≡ serial self.now };
}

/// The serial of an id, or 0 of a text that is none.
fn serial_in(text: &Text) -> u64
    ensures { result ≡ serial_in text.now }
{
    match read_id(text.as_bytes()) {
        Some(id) => id.serial,
        None => 0,
    }
}

impl Numbered for SessionRow {
    ghost use Rattle.keeper_reports.specs.Reports.{serial_in};

    ghost serial = { λ s. serial_in s.id };

    fn serial(&self) -> u64 {
        serial_in(&self.id)
    }
}

impl Numbered for TokenRow {
    ghost use Rattle.keeper_reports.specs.Reports.{serial_in};

    ghost serial = { λ t. serial_in t.key };

    fn serial(&self) -> u64 {
        serial_in(&self.key)
    }
}

/// The accounts by the bytes of their names.
pub(crate) fn by_name(alloc: Global, accounts: &[AccountRow]) -> Result<Vec<&AccountRow>, Memory>
    ensures { IfOk result (λ rows. map (λ row. row.now) rows.items ≡ in_order text_cmp (λ a. a.name) accounts.now) }
{
    let mut rows: Vec<&AccountRow> = accounts.iter().collect(alloc)?;
    rows.sort_by(|first, second| first.name.cmp(&second.name))?;
    Ok(rows)
}

/// The rows by their serials.
pub(crate) fn by_serial<R: Numbered>(alloc: Global, rows: &[R]) -> Result<Vec<&R>, Memory>
    ensures { IfOk result (λ ordered. map (λ row. row.now) ordered.items ≡ in_order nat_cmp R.serial rows.now) }
{
    let mut ordered: Vec<&R> = rows.iter().collect(alloc)?;
    ordered.sort_by_cached_key(|row| row.serial())?;
    Ok(ordered)
}
