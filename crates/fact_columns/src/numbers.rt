ghost use Rattle.std.specs.Prelude.{◌≡◌};
ghost use Rattle.fact_columns.specs.Numbers.{column, flag, moment_or_none};

use login_base::Moment;

/// The greatest number of a column.
const GREATEST: u64 = i64::MAX as u64;

/// A number as a column holds it: the greatest one stands for all past it.
pub fn column(number: u64) -> i64
    ensures value { result ≡ column number }
{
    number.min(GREATEST) as i64
}

/// 1 or 0.
pub fn flag(is: bool) -> i64
    ensures value { result ≡ flag is }
{
    i64::from(is)
}

/// A moment, or -1 for none.
pub fn moment_or_none(moment: Option<Moment>) -> i64
    ensures value { result ≡ moment_or_none moment }
{
    match moment {
        Some(moment) => moment.millis() as i64,
        None => -1,
    }
}
