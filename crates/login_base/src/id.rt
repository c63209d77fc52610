ghost use Rattle.std.specs.Prelude.{◌≡◌, ◌<◌, ◌≤◌, ◌+◌, ◌++◌, length, take, drop, Some, IfSome};
ghost use Rattle.login_base.specs.IdText.{hex_text, hex_digit, hex_value_from, digit_value, id_bytes, id_of, same_id, IsId};

/// A serial number, which makes ids distinct, and two random draws, which make them hard to guess.
#[derive(Clone, Copy, Debug, PartialEq, Eq)]
pub struct Id {
    pub serial: u64,
    pub high: u64,
    pub low: u64,
}

/// Names a browser: its tabs are opened under it.
#[derive(Clone, Copy, Debug, PartialEq, Eq)]
pub struct RootKey(pub Id);

/// Names a tab of a root.
#[derive(Clone, Copy, Debug, PartialEq, Eq)]
pub struct TabKey(pub Id);

/// Names one rendering of a tab's step: a post has to carry the last one.
#[derive(Clone, Copy, Debug, PartialEq, Eq)]
pub struct Code(pub Id);

/// Names a session.
#[derive(Clone, Copy, Debug, PartialEq, Eq)]
pub struct SessionId(pub Id);

/// Names a token.
#[derive(Clone, Copy, Debug, PartialEq, Eq)]
pub struct TokenKey(pub Id);

/// Names an account by its serial number.
#[derive(Clone, Copy, Debug, PartialEq, Eq)]
pub struct UserId(pub u64);

/// Whether both ids have the same serial and draws.
pub fn same_id(first: &Id, second: &Id) -> bool
    ensures value { result ≡ same_id first.now second.now }
{
    first.serial == second.serial && first.high == second.high && first.low == second.low
}

fn digit(d: u8) -> u8
    requires { d < 16 }
    ensures { result ≡ hex_digit d }
{
    if d < 10 { b'0' + d } else { b'a' - 10 + d }
}

/// Sixteen digits.
fn hex(n: u64) -> [u8; 16]
    ensures { result ≡ hex_text 16 n }
{
    let mut out = [0u8; 16];
    let mut rest = n;
    for i in 0..16usize {
        out[15 - i] = digit((rest % 16) as u8);
        rest /= 16;
    }
    out
}

fn put_hex(out: &mut [u8], at: usize, n: u64)
    requires { at + 16 ≤ length out.old }
    ensures { out.new ≡ take at out.old ++ hex_text 16 n ++ drop (at + 16) out.old }
{
    let (_, rest) = out.split_at_mut(at);
    let (place, _) = rest.split_at_mut(16);
    place.copy_from_slice(&hex(n));
}

/// The text of an id: 16 small hexadecimal digits of the serial, a dot, and 32 of the two draws.
pub fn id_text(id: &Id) -> [u8; 49]
    ensures text { result ≡ id_bytes id.now }
{
    let mut out = [b'.'; 49];
    put_hex(&mut out, 0, id.serial);
    put_hex(&mut out, 17, id.high);
    put_hex(&mut out, 33, id.low);
    out
}

fn value(b: u8) -> Option<u8>
    ensures value { result ≡ digit_value b }
    ensures below { IfSome result (λ d. d < 16) }
{
    match b {
        b'0'..=b'9' => Some(b - b'0'),
        b'a'..=b'f' => Some(b - b'a' + 10),
        _ => None,
    }
}

fn read_hex(text: &[u8]) -> Option<u64>
    requires { length text.now ≡ 16 }
    ensures { result ≡ hex_value_from 0 text.now }
{
    let mut n = 0u64;
    for b in text {
        n = n * 16 + u64::from(value(*b)?);
    }
    Some(n)
}

#[tactic(auto, unfolding(crate::specs::IdText::id_of))]
fn id_at(text: &[u8]) -> Option<Id>
    ensures { result ≡ id_of text.now }
{
    if text.len() != 49 || text[16] != b'.' {
        return None;
    }
    let serial = read_hex(&text[..16])?;
    let high = read_hex(&text[17..33])?;
    let low = read_hex(&text[33..49])?;
    Some(Id { serial, high, low })
}

/// The id whose text this is, or none where it is no id's text.
pub fn read_id(text: &[u8]) -> Option<Id>
    ensures text { IfSome result (λ i. text.now ≡ id_bytes i) }
    ensures only { (i : Id) → IsId i → text.now ≡ id_bytes i → result ≡ Some i }
    ensures value { result ≡ id_of text.now }
{
    id_at(text)
}
