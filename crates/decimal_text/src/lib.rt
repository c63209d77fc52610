//! Numbers in texts: digits without a sign or a leading zero.
#![tactic(auto)]

ghost use Rattle.std.specs.Prelude.{◌≡◌, ◌≢◌, ◌<◌, ◌≤◌, ◌^◌, ℕ, Some, IfSome, IfNone, decimal};
ghost use Rattle.decimal_text.specs.Numbers.{starts_number, number};

use std::str;

/// Whether a text is `0`, or begins with another digit.
fn starts_number(text: &[u8]) -> bool
    ensures { result ≡ starts_number text.now }
{
    match text {
        [] => false,
        [b'0'] => true,
        [first, ..] => matches!(first, b'1'..=b'9'),
    }
}

/// The number below 2^64 whose decimal text this is.
fn decimal_value(text: &[u8]) -> Option<u64>
    ensures value { IfSome result (λ n. text.now ≡ decimal n) }
    ensures only { (n : ℕ) → n < 2 ^ 64 → text.now ≡ decimal n → result ≡ Some n }
{
    if !starts_number(text) {
        return None;
    }
    match str::from_utf8(text) {
        Ok(text) => text.parse::<u64>().ok(),
        Err(_) => None,
    }
}

/// The number up to `last` whose decimal text this is: digits without a sign or a leading zero.
pub fn number(text: &[u8], last: u64) -> Option<u64>
    ensures value { IfSome result (λ n. (text.now ≡ decimal n) × (n ≤ last)) }
    ensures none { IfNone result ((n : ℕ) → n ≤ last → text.now ≢ decimal n) }
    ensures same { result ≡ number last text.now }
{
    match decimal_value(text) {
        Some(n) if n <= last => Some(n),
        _ => None,
    }
}
