//! One-time codes of the time.

ghost use Rattle.std.specs.Prelude.{◌≡◌, ◌-◌, ◌≤◌};
ghost use Rattle.std.specs.List.{range_with_len};
ghost use Rattle.one_time.specs.Hotp.{truncated, hotp, decimal_text, is_code_of};
ghost use Rattle.one_time.specs.Verdicts.{with_earlier, verdict_over, totp_verdict};

use crate::verdict::Verdict;
use mac_kit::hmac_sha1;

/// A step's length in milliseconds (X of RFC 6238).
const STEP: u64 = 30_000;

/// The 31 bits of a code (RFC 4226, section 5.3).
#[tactic(auto, unfolding(crate::specs::Hotp::truncated))]
fn truncated(mac: &[u8; 20]) -> u32
    ensures value { result ≡ truncated mac.now }
{
    let at = usize::from(mac[19] & 0x0f);
    u32::from_be_bytes([mac[at], mac[at + 1], mac[at + 2], mac[at + 3]]) & 0x7fff_ffff
}

/// The code of a step under a key, as a number of 6 to 8 decimal digits (RFC 6238, section 4.2).
#[tactic(auto, unfolding(crate::specs::Hotp::hotp))]
pub fn totp_at(key: &[u8], step: u64, digits: u32) -> u32
    requires low { 6 ≤ digits }
    requires high { digits ≤ 8 }
    ensures value { result ≡ hotp key.now step digits }
{
    truncated(&hmac_sha1(key, &step.to_be_bytes())) % 10u32.pow(digits)
}

/// Eight decimal digits.
fn decimal(value: u32) -> [u8; 8]
    ensures value { result ≡ decimal_text 8 value }
{
    let mut text = [0u8; 8];
    let mut rest = value;
    'digits: for i in 0..8usize {
        text[7 - i] = b'0' + (rest % 10) as u8;
        rest /= 10;
    }
    text
}

/// A text is the code of this step.
#[tactic(auto, unfolding(crate::specs::Hotp::is_code_of))]
fn is_code_of(key: &[u8], digits: u32, code: &[u8], step: u64) -> bool
    requires low { 6 ≤ digits }
    requires high { digits ≤ 8 }
    ensures value { result ≡ is_code_of key.now digits code.now step }
{
    let text = decimal(totp_at(key, step, digits));
    code == &text[8 - digits as usize..]
}

/// The verdict once an earlier step is looked at too, whose code the text is or isn't.
fn with_earlier(step: u64, fits: bool, spent: bool, later: Verdict) -> Verdict
    ensures verdict { result ≡ with_earlier step fits spent later }
{
    match (fits, spent, later) {
        (false, _, later) => later,
        (true, false, _) => Verdict::Fits(step),
        (true, true, Verdict::Fits(at)) => Verdict::Fits(at),
        (true, true, _) => Verdict::Spent(step),
    }
}

/// The verdict over the steps from `first` on and before `end`. The code of each is made once.
fn verdict_over(
    key: &[u8],
    digits: u32,
    code: &[u8],
    first: u64,
    end: u64,
    spent: &[u64],
) -> Verdict
    requires low { 6 ≤ digits }
    requires high { digits ≤ 8 }
    requires order { first ≤ end }
    ensures verdict { result ≡
        verdict_over (is_code_of key.now digits code.now) spent.now (range_with_len first (end - first)) }
{
    let mut verdict = Verdict::Wrong;
    let mut step = end;
    while step > first {
        step -= 1;
        let fits = is_code_of(key, digits, code, step);
        verdict = with_earlier(step, fits, spent.contains(&step), verdict);
    }
    verdict
}

/// Checks a typed code at a moment in milliseconds: it fits the steps at most `window` before or
/// after the moment's own, and `spent` are the steps that were used.
#[tactic(auto, unfolding(crate::specs::Verdicts::totp_verdict))]
pub fn check_totp(
    key: &[u8],
    now: u64,
    window: u32,
    digits: u32,
    spent: &[u64],
    code: &[u8],
) -> Verdict
    requires window { window ≤ 2 }
    requires low { 6 ≤ digits }
    requires high { digits ≤ 8 }
    ensures verdict { result ≡ totp_verdict key.now now window digits spent.now code.now }
{
    let step = now / STEP;
    let first = step.saturating_sub(u64::from(window));
    let end = step + u64::from(window) + 1;
    verdict_over(key, digits, code, first, end, spent)
}
