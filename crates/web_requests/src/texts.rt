ghost use Rattle.std.specs.Prelude.{◌≡◌, reverse};
ghost use Rattle.form_urlencoded.specs.Form.{split_once};
ghost use Rattle.web_requests.specs.Texts.{same_word, skip_spaces, trim_spaces};

/// Whether two texts are the same but for the case of ASCII letters.
#[tactic(auto, unfolding(crate::specs::Texts::same_word))]
pub fn same_word(text: &[u8], other: &[u8]) -> bool
    ensures value { result ≡ same_word text.now other.now }
{
    text.eq_ignore_ascii_case(other)
}

/// The bytes from the first that is no space.
#[tactic(auto, unfolding(crate::specs::Texts::skip_spaces))]
fn skip_spaces(text: &[u8]) -> &[u8]
    ensures rest { result.now ≡ skip_spaces text.now }
{
    let mut rest = text;
    while let Some((first, more)) = rest.split_first() {
        if *first != b' ' {
            return rest;
        }
        rest = more;
    }
    rest
}

/// The bytes without the spaces at the end.
fn without_last_spaces(text: &[u8]) -> &[u8]
    ensures front { result.now ≡ reverse (skip_spaces (reverse text.now)) }
{
    let mut rest = text;
    while let Some((last, more)) = rest.split_last() {
        if *last != b' ' {
            return rest;
        }
        rest = more;
    }
    rest
}

/// The bytes without the spaces at both ends.
#[tactic(auto, unfolding(crate::specs::Texts::trim_spaces))]
pub fn trim_spaces(text: &[u8]) -> &[u8]
    ensures text { result.now ≡ trim_spaces text.now }
{
    without_last_spaces(skip_spaces(text))
}

/// The bytes before the first separator, or all, and those behind it.
pub fn split_once(text: &[u8], separator: u8) -> (&[u8], &[u8])
    ensures before { result.0.now ≡ (split_once separator text.now).0 }
    ensures after { result.1.now ≡ (split_once separator text.now).1 }
{
    match text.iter().position(|b| *b == separator) {
        Some(i) => (&text[..i], &text[i + 1..]),
        None => (text, &[]),
    }
}
