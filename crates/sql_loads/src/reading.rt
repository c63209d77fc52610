ghost use Rattle.std.specs.Prelude.{◌≡◌, ◌<◌, ◌+◌, ◌^◌, ◌↔◌, IfOk, IfSome, OnOk, IsTrue, Ok, Err, length, map, option_map};
ghost use Rattle.std.specs.Ordering.{int_cmp};
ghost use Rattle.std.specs.List.{AllByRecursion};
ghost use Rattle.sqlite.specs.Order.{Row as Values, column};
ghost use Rattle.sqlite.specs.declared.types.Value.TheVariants.{Int};
ghost use Rattle.sqlite.specs.declared.types.Value.TheVariants as values;
ghost use Rattle.sql_base.specs.Ready.{AreApart};
ghost use Rattle.sql_base.specs.declared.fault.Fault.TheVariants as faults;
ghost use Rattle.sql_loads.specs.Fits.{HoldsBytes, HoldsNumber, HoldsText};
ghost use Rattle.sql_loads.specs.Read.{HaveRowids, IsRead, Rises};

use keeper_rows::{Keyed, Text};
use login_base::{Memory, Sequence};
use sql_base::Fault;
use sqlite::Row;
use std::alloc::Global;
use std::cmp::Ordering;

/// What an answer's row can be read as.
pub(crate) trait Shown: Keyed + Drop {
    // What the row tells, where each column holds what is wanted of it.
    ghost told_by: { Values → Self };

    ghost fits: { Values → Type 0 };

    fn read(alloc: Global, row: &Row) -> Result<Self, Fault>
        ensures told { IfOk result (λ told. told ≡ told_by row.now) }
        ensures fit { OnOk result (fits row.now) }
        ensures cause { result ≡ Err faults.Failed → ¬ fits row.now };
}

fn of_memory<T>(made: Result<T, Memory>) -> Result<T, Fault>
    ensures ok { IfOk result (λ it. made ≡ Ok it) }
    ensures cause { ¬ (result ≡ Err faults.Failed) }
{
    match made {
        Ok(it) => Ok(it),
        Err(_) => Err(Fault::Memory),
    }
}

/// The number in a column.
pub(crate) fn number_at(row: &Row, at: usize) -> Result<i64, Fault>
    ensures told { IfOk result (λ number. column row.now at ≡ values.Int number) }
    ensures within { OnOk result (at < length row.now) }
    ensures cause { result ≡ Err faults.Failed → at < length row.now → ¬ HoldsNumber (column row.now at) }
{
    Ok(row.get(at)?)
}

/// The number, from 1, of the row at a place.
pub(crate) fn number_of(place: Option<usize>) -> Option<u64>
    requires within { IfSome place (λ at. at < 2 ^ 63) }
    ensures value { result ≡ option_map (λ at. at + 1) place }
{
    match place {
        Some(at) => Some(at as u64 + 1),
        None => None,
    }
}

/// The text in a column.
pub(crate) fn text_at(alloc: Global, row: &Row, at: usize) -> Result<Text, Fault>
    ensures told { IfOk result (λ text. column row.now at ≡ values.Text text) }
    ensures fits { OnOk result (HoldsText (column row.now at)) }
    ensures within { OnOk result (at < length row.now) }
    ensures cause { result ≡ Err faults.Failed → at < length row.now → ¬ HoldsText (column row.now at) }
{
    let text: String = row.get(at)?;
    of_memory(Text::new(alloc, text.as_str()))
}

/// The bytes in a column.
pub(crate) fn bytes_at(row: &Row, at: usize) -> Result<Sequence<u8>, Fault>
    ensures told { IfOk result (λ bytes. column row.now at ≡ values.Blob bytes) }
    ensures within { OnOk result (at < length row.now) }
    ensures cause { result ≡ Err faults.Failed → at < length row.now → ¬ HoldsBytes (column row.now at) }
{
    Ok(Sequence::from_vec(row.get(at)?))
}

fn read_rows<R: Shown>(alloc: Global, rows: &[Row]) -> Result<Sequence<R>, Fault>
    ensures told { IfOk result (λ told. told ≡ map R.told_by rows.now) }
    ensures fit { OnOk result (AllByRecursion R.fits rows.now) }
    ensures cause { result ≡ Err faults.Failed → ¬ AllByRecursion R.fits rows.now }
{
    let mut told = Sequence::new(alloc);
    for row in rows {
        of_memory(told.push(R::read(alloc, row)?))?;
    }
    Ok(told)
}

fn read_numbers(alloc: Global, rows: &[Row], at: usize) -> Result<Sequence<i64>, Fault>
    ensures told { IfOk result (λ numbers. map Int numbers ≡ map (λ row. column row at) rows.now) }
    ensures cause { result ≡ Err faults.Failed
        → ¬ AllByRecursion (λ row. (at < length row) × HoldsNumber (column row at)) rows.now }
{
    let mut numbers = Sequence::new(alloc);
    for row in rows {
        of_memory(numbers.push(number_at(row, at)?))?;
    }
    Ok(numbers)
}

/// Whether each row has a lower key than the next.
fn rise<R: Keyed>(rows: &[R]) -> bool
    ensures rising { IsTrue result ↔ Rises R.Key.cmp R.key rows.now }
{
    for i in 1..rows.len() {
        if rows[i - 1].key().cmp(rows[i].key()) != Ordering::Less {
            return false;
        }
    }
    true
}

/// Whether each number is lower than the next.
fn numbers_rise(numbers: &[i64]) -> bool
    ensures rising { IsTrue result ↔ Rises int_cmp (λ n. n) numbers.now }
{
    for i in 1..numbers.len() {
        if numbers[i - 1].cmp(&numbers[i]) != Ordering::Less {
            return false;
        }
    }
    true
}

/// Whether no number comes twice.
fn differ(numbers: Sequence<i64>) -> bool
    ensures apart { IsTrue result ↔ AreApart int_cmp (λ n. n) numbers }
{
    let mut sorted = numbers.into_vec();
    sorted.sort_unstable();
    numbers_rise(sorted.as_slice())
}

/// The rows that an answer tells, where their keys rise.
pub(crate) fn read_rising<R: Shown>(alloc: Global, rows: &[Row]) -> Result<Sequence<R>, Fault>
    ensures told { IfOk result (IsRead R.Key.cmp R.key R.told_by R.fits rows.now) }
    ensures cause { result ≡ Err faults.Failed → AllByRecursion R.fits rows.now
        → ¬ Rises R.Key.cmp R.key (map R.told_by rows.now) }
{
    let told = read_rows(alloc, rows)?;
    if rise(told.as_slice()) {
        Ok(told)
    } else {
        Err(Fault::Failed)
    }
}

/// Tests that the rowids, which stand at one place of an answer's rows, are numbers that differ.
pub(crate) fn check_rowids(alloc: Global, rows: &[Row], at: usize) -> Result<(), Fault>
    ensures ok { OnOk result (HaveRowids at rows.now) }
    ensures cause { result ≡ Err faults.Failed → AllByRecursion (λ row. at < length row) rows.now
        → ¬ HaveRowids at rows.now }
{
    let rowids = read_numbers(alloc, rows, at)?;
    if differ(rowids) {
        Ok(())
    } else {
        Err(Fault::Failed)
    }
}
