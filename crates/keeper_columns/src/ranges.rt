ghost use Rattle.std.specs.Prelude.{◌≡◌, ◌^◌};
ghost use Rattle.keeper_columns.specs.Ranges.{is_within, is_flag, is_serial, is_count, is_moment, is_last, is_end, is_life, natural, is_above, is_step_above};

/// The greatest serial.
const LAST_SERIAL: u64 = 1 << 62;

/// The last moment, in milliseconds.
pub(crate) const LAST_MOMENT: u64 = (1 << 53) - 1;

/// The greatest end of a lock or of a token's life, in milliseconds.
const LAST_END: u64 = 1 << 54;

/// From the least to the greatest, both included.
fn is_within(least: u64, greatest: u64, number: &i64) -> bool
    ensures value { result ≡ is_within least greatest number.now }
{
    match u64::try_from(*number) {
        Ok(number) => least <= number && number <= greatest,
        Err(_) => false,
    }
}

pub fn is_flag(number: &i64) -> bool
    ensures value { result ≡ is_flag number.now }
{
    is_within(0, 1, number)
}

pub fn is_serial(number: &i64) -> bool
    ensures value { result ≡ is_serial number.now }
{
    is_within(1, LAST_SERIAL, number)
}

pub fn is_count(number: &i64) -> bool
    ensures value { result ≡ is_count number.now }
{
    is_within(0, 0xffff_ffff, number)
}

pub fn is_moment(number: &i64) -> bool
    ensures value { result ≡ is_moment number.now }
{
    is_within(0, LAST_MOMENT, number)
}

/// A moment, or -1 for none.
pub fn is_last(number: &i64) -> bool
    ensures value { result ≡ is_last number.now }
{
    *number == -1 || is_moment(number)
}

/// The end of a lock or of a token's life.
pub fn is_end(number: &i64) -> bool
    ensures value { result ≡ is_end number.now }
{
    is_within(0, LAST_END, number)
}

/// A session's life in seconds.
pub fn is_life(number: &i64) -> bool
    ensures value { result ≡ is_life number.now }
{
    is_within(1, 31_536_000, number)
}

/// The number, or 0 for one below.
pub fn natural(number: &i64) -> u64
    ensures value { result ≡ natural number.now }
{
    match u64::try_from(*number) {
        Ok(number) => number,
        Err(_) => 0,
    }
}

/// Whether the number is above this limit.
pub fn is_above(number: u64, limit: &i64) -> bool
    ensures value { result ≡ is_above number limit.now }
{
    match u64::try_from(*limit) {
        Ok(limit) => limit < number,
        Err(_) => true,
    }
}

/// Whether a step of 30 s can't have been spent until this moment.
pub fn is_step_above(step: u64, moment: &i64) -> bool
    ensures value { result ≡ is_step_above step moment.now }
{
    match u64::try_from(*moment) {
        Ok(moment) => moment / 30_000 + 2 < step,
        Err(_) => true,
    }
}

/// The mark's serial, which is 0 before the first one.
pub fn is_mark_serial(number: &i64) -> bool
    ensures value { result ≡ is_within 0 (2 ^ 62) number.now }
{
    is_within(0, LAST_SERIAL, number)
}
