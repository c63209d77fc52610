//! Base32 (RFC 4648, section 6), as people type it: either case, with or without `=` at the end.

ghost use Rattle.std.specs.Prelude.{◌≡◌, ◌*◌, ◌%◌, ◌^◌, ◌<◌, ◌⊎◌, map, length, IfOk, IfErr, IsOk, Ok, Err};
ghost use Rattle.std.specs.Int.Digits.{number_from_digits};
ghost use Rattle.one_time.specs.Base32.{AreFilled, Holds, base32_bytes, base32_letters, digit_of, fault_from, fault_of, first_bad, is_bad_length, letter_of, letter_value, letters_bytes, without_fill};

use crate::regrouped::Regrouped;
use login_base::Memory;
use std::alloc::Global;

/// Why a text is no base32, or wasn't read.
#[derive(Clone, Copy, Debug, PartialEq, Eq)]
pub enum Base32Fault {
    /// The byte at this place is outside the alphabet.
    BadLetter { at: u64 },
    /// No bytes have a text with so many letters.
    BadLength,
    /// Want of memory.
    Memory,
}

/// The text without the `=` at its end.
fn without_fill(text: &[u8]) -> &[u8]
    ensures value { result.now ≡ without_fill text.now }
{
    let mut end = text.len();
    'fill: while end > 0 && text[end - 1] == b'=' {
        end -= 1;
    }
    &text[..end]
}

/// The value of a letter in either case.
fn letter_value(b: u8) -> Option<u8>
    ensures value { result ≡ letter_value b }
{
    match b {
        b'A'..=b'Z' => Some(b - b'A'),
        b'a'..=b'z' => Some(b - b'a'),
        b'2'..=b'7' => Some(b - b'2' + 26),
        _ => None,
    }
}

/// The value of what is known to be a letter.
fn digit_of(b: u8) -> u8
    ensures value { result ≡ digit_of b }
    ensures below { result < 32 }
{
    letter_value(b).unwrap_or(0)
}

/// No bytes have a text of this length.
fn is_bad_length(letters: usize) -> bool
    ensures value { result ≡ is_bad_length letters }
{
    matches!(letters % 8, 1 | 3 | 6)
}

/// The bytes that the letters' bits make; bits that are left at the end are dropped.
fn letters_bytes(alloc: Global, letters: &[u8]) -> Result<Vec<u8>, Memory>
    ensures ok { IfOk result (λ bytes. bytes.items ≡ letters_bytes letters.now) }
{
    let mut bits = Regrouped::new(alloc);
    'letters: for letter in letters {
        bits.take_in(digit_of(*letter), 5, 8)?;
    }
    Ok(bits.into_digits())
}

/// The place of the first byte outside the alphabet.
fn first_bad(letters: &[u8]) -> Option<usize>
    ensures value { result ≡ first_bad letters.now }
{
    letters.iter().position(|b| letter_value(*b).is_none())
}

/// The first fault, where there is one.
fn fault_from(first_bad: Option<usize>, bad_length: bool) -> Option<Base32Fault>
    ensures value { result ≡ fault_from first_bad bad_length }
{
    match (first_bad, bad_length) {
        (Some(at), _) => Some(Base32Fault::BadLetter { at: at as u64 }),
        (None, true) => Some(Base32Fault::BadLength),
        (None, false) => None,
    }
}

/// Why the letters are no bytes' text, or none where they are one.
fn fault_of(letters: &[u8]) -> Option<Base32Fault>
    ensures value { result ≡ fault_of letters.now }
{
    fault_from(first_bad(letters), is_bad_length(letters.len()))
}

/// Reads a secret that was typed in base32. A byte outside the alphabet is named before a length
/// that no bytes have; want of memory comes only for a text that spells bytes.
pub fn base32_read(alloc: Global, text: &[u8]) -> Result<Vec<u8>, Base32Fault>
    ensures ok { IfOk result (λ bytes. base32_bytes text.now ≡ Ok bytes.items) }
    ensures err { IfErr result (λ e. (base32_bytes text.now ≡ Err e)
        ⊎ ((e ≡ Base32Fault.Memory) × IsOk (base32_bytes text.now))) }
{
    let letters = without_fill(text);
    match fault_of(letters) {
        Some(fault) => Err(fault),
        None => match letters_bytes(alloc, letters) {
            Ok(bytes) => Ok(bytes),
            Err(Memory) => Err(Base32Fault::Memory),
        },
    }
}

/// The letter of a digit below 32.
fn letter_of(digit: u8) -> u8
    requires { digit < 32 }
    ensures value { result ≡ letter_of digit }
{
    if digit < 26 {
        b'A' + digit
    } else {
        b'2' - 26 + digit
    }
}

/// Each digit's letter, in its place.
fn lettered(mut digits: Vec<u8>) -> Vec<u8>
    ensures value { result.items ≡ map (λ digit. letter_of (digit % 32)) digits.items }
{
    'digits: for digit in digits.iter_mut() {
        *digit = letter_of(*digit % 32);
    }
    digits
}

/// The bytes' bits in digits of five.
fn regrouped_bytes(alloc: Global, bytes: &[u8]) -> Result<Regrouped, Memory>
    ensures ready { IfOk result (λ bits. bits.count < 5) }
    ensures held { IfOk result (λ bits. bits.held < 2 ^ bits.count) }
    ensures value { IfOk result (λ bits. Holds 5 bits (number_from_digits (2 ^ 8) bytes.now) (8 * length bytes.now)) }
{
    let mut bits = Regrouped::new(alloc);
    'bytes: for byte in bytes {
        bits.take_in(*byte, 8, 5)?;
    }
    Ok(bits)
}

/// The digits, the last of which is filled up with zeros.
fn filled_up(mut bits: Regrouped) -> Result<Vec<u8>, Memory>
    requires ready { bits.count < 5 }
    requires held { bits.held < 2 ^ bits.count }
    ensures ok { IfOk result (λ digits. AreFilled bits digits.items) }
{
    if bits.count == 0 {
        return Ok(bits.into_digits());
    }
    let missing = 5 - bits.count;
    bits.take_in(0, missing, 5)?;
    Ok(bits.into_digits())
}

/// The base32 text of a secret, in capitals and without `=` at its end.
pub fn base32_text(alloc: Global, bytes: &[u8]) -> Result<Vec<u8>, Memory>
    ensures ok { IfOk result (λ text. text.items ≡ base32_letters bytes.now) }
{
    let bits = regrouped_bytes(alloc, bytes)?;
    Ok(lettered(filled_up(bits)?))
}

/// Law: reading the text of bytes gives the bytes.
pub fn base32_reads_back(bytes: &[u8])
    ensures value { base32_bytes (base32_letters bytes.now) ≡ Ok bytes.now }
{}
