ghost use Rattle.std.specs.Prelude.{◌≡◌, ◌≤◌, IfSome, length, take, ⊤, ◌==◌};
ghost use Rattle.std.specs.List.{count_by};
ghost use Rattle.std.specs.Option.{option_copied, option_map};
ghost use Rattle.web_requests.specs.Front.{begins_blank, skip_blank, behind_blank, behind_head, place_from, head_place, field_lines, IsWithin};

/// What stands at the front of a request.
#[derive(Clone, Copy, Debug, PartialEq, Eq)]
pub enum HeadPlace {
    /// The head isn't there yet.
    Unfinished,
    /// No head ends within the limit.
    TooLarge,
    /// A head, from its first line that isn't empty to its end.
    Whole { start: usize, end: usize },
}

/// Whether an empty line begins here: LF, or CR LF.
fn begins_blank(text: &[u8]) -> bool
    ensures { result ≡ begins_blank text.now }
{
    text.starts_with(b"\n") || text.starts_with(b"\r\n")
}

/// The bytes from the first line that isn't empty.
#[tactic(auto, unfolding(crate::specs::Front::skip_blank))]
fn skip_blank(text: &[u8]) -> &[u8]
    ensures rest { result.now ≡ skip_blank text.now }
    ensures len { length result.now ≤ length text.now }
{
    let mut rest = text;
    while let Some((_, more)) = rest.split_first() {
        if !begins_blank(rest) {
            return rest;
        }
        rest = more;
    }
    rest
}

/// The bytes behind an empty line.
fn behind_blank(text: &[u8]) -> &[u8]
    ensures rest { result.now ≡ behind_blank text.now }
    ensures len { length result.now ≤ length text.now }
{
    match text {
        [b'\n', rest @ ..] => rest,
        [_, _, rest @ ..] => rest,
        _ => &[],
    }
}

/// The bytes behind the first empty line that follows a line.
#[tactic(auto, unfolding(crate::specs::Front::behind_head))]
fn behind_head(text: &[u8]) -> Option<&[u8]>
    ensures rest { option_map (λ rest. rest.now) result ≡ behind_head text.now }
    ensures len { IfSome result (λ rest. length rest.now ≤ length text.now) }
{
    let mut rest = text;
    while let Some((first, more)) = rest.split_first() {
        if *first == b'\n' && begins_blank(more) {
            return Some(behind_blank(more));
        }
        rest = more;
    }
    None
}

/// The first bytes, as many as the limit.
fn window(bytes: &[u8], limit: usize) -> &[u8]
    ensures value { result.now ≡ take limit bytes.now }
    ensures len { length result.now ≤ length bytes.now }
{
    if bytes.len() <= limit {
        bytes
    } else {
        &bytes[..limit]
    }
}

/// Where the head is in the first bytes of a request, as many as the limit.
#[tactic(auto, unfolding(crate::specs::Front::head_place))]
pub fn head_place(bytes: &[u8], limit: usize) -> HeadPlace
    ensures place { result ≡ head_place limit bytes.now }
    ensures within { IsWithin (length bytes.now) result }
{
    let window = window(bytes, limit);
    let lines = skip_blank(window);
    match behind_head(lines) {
        Some(rest) => HeadPlace::Whole {
            start: window.len() - lines.len(),
            end: window.len() - rest.len(),
        },
        None => {
            if limit <= bytes.len() {
                HeadPlace::TooLarge
            } else {
                HeadPlace::Unfinished
            }
        }
    }
}

/// The number of lines that are ended in a text.
fn line_count(text: &[u8]) -> usize
    ensures { result ≡ count_by (λ b. b == 10) text.now }
{
    text.iter().filter(|b| **b == b'\n').count()
}

/// The number of lines of a head but for its first one and the empty one.
pub fn field_lines(head: &[u8]) -> usize
    ensures lines { result ≡ field_lines head.now }
{
    line_count(head).saturating_sub(2)
}
