ghost use Rattle.std.specs.Prelude.{◌≡◌, ◌<◌, ℕ, length, IfOk, IfSome};
ghost use Rattle.std.specs.Ordering.{is_eq};
ghost use Rattle.keeper_rules.specs.Repeats.{first_repeat, earlier};

use login_base::Memory;
use std::alloc::Global;
use std::collections::BTreeSet;

/// The place of the first key that an earlier one equals.
pub(crate) fn first_repeat<K: Ord + Copy>(
    alloc: Global,
    keys: &[K],
) -> Result<Option<usize>, Memory>
    ensures ok { IfOk result (λ place. place ≡ first_repeat (λ a b. is_eq (K.cmp a b)) keys.now) }
    ensures within { IfOk result (λ place. IfSome place (λ at. at < length keys.now)) }
{
    let mut seen = BTreeSet::new(alloc);
    'keys: for (at, key) in keys.iter().enumerate() {
        if !seen.insert(*key)? {
            return Ok(Some(at));
        }
    }
    Ok(None)
}

/// The earlier one of two places.
pub(crate) fn earlier(place: Option<usize>, other: Option<usize>) -> Option<usize>
    ensures place { result ≡ earlier place other }
    ensures within { (n : ℕ) → IfSome place (λ at. at < n) → IfSome other (λ at. at < n)
        → IfSome result (λ at. at < n) }
{
    match (place, other) {
        (Some(place), Some(other)) => Some(place.min(other)),
        (Some(place), None) => Some(place),
        (None, other) => other,
    }
}
