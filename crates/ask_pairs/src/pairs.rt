ghost use Rattle.std.specs.Prelude.{◌≡◌, IfOk};
ghost use Rattle.std.specs.List.{list_any};
ghost use Rattle.std.specs.Option.{option_copied};
ghost use Rattle.std.specs.Str.Lossy.{utf8_lossy};
ghost use Rattle.form_urlencoded.specs.Form.{decode};
ghost use Rattle.ask_pairs.specs.Pairs.{pair_from, pairs_of, is_named, has, value_of};

use login_base::{Memory, Sequence};
use std::alloc::Global;

/// A pair of a form's text, decoded.
#[derive(Debug, Drop)]
pub struct Pair {
    pub name: Sequence<u8>,
    pub value: Sequence<u8>,
}

/// The text that stands in a form. What isn't UTF-8 is read as U+FFFD, which no value may have: it
/// is no byte of a name.
fn decode_text(alloc: Global, text: &[u8]) -> Result<Sequence<u8>, Memory>
    ensures { IfOk result (λ bytes. bytes ≡ utf8_lossy (decode text.now)) }
{
    let text = form_urlencoded::decode(alloc, text)?;
    let bytes = Vec::from_slice(alloc, text.as_str().as_bytes())?;
    Ok(Sequence::from_vec(bytes))
}

fn pair_from(alloc: Global, name: &[u8], value: &[u8]) -> Result<Pair, Memory>
    ensures { IfOk result (λ pair. pair ≡ pair_from (name.now, value.now)) }
{
    let name = decode_text(alloc, name)?;
    let value = decode_text(alloc, value)?;
    Ok(Pair { name, value })
}

/// The pairs of a form's text.
pub fn pairs_of(alloc: Global, text: &[u8]) -> Result<Vec<Pair>, Memory>
    ensures pairs { IfOk result (λ pairs. pairs.items ≡ pairs_of text.now) }
{
    let mut pairs = Vec::new(alloc);
    for (name, value) in form_urlencoded::raw_pairs(text) {
        pairs.push(pair_from(alloc, name, value)?)?;
    }
    Ok(pairs)
}

/// Whether a pair has this name.
fn is_named(pair: &Pair, name: &[u8]) -> bool
    ensures { result ≡ is_named name.now pair.now }
{
    pair.name.as_slice() == name
}

/// Whether some pair has this name.
pub fn has(pairs: &[Pair], name: &[u8]) -> bool
    ensures value { result ≡ has name.now pairs.now }
{
    pairs.iter().any(|pair| is_named(pair, name))
}

/// The value of the pair of this name, where there is exactly one.
pub fn value_of<'a>(pairs: &'a [Pair], name: &[u8]) -> Option<&'a [u8]>
    ensures value { option_copied result ≡ value_of name.now pairs.now }
{
    let index = pairs.iter().position(|pair| is_named(pair, name))?;
    if has(&pairs[index + 1..], name) {
        return None;
    }
    Some(pairs[index].value.as_slice())
}
