ghost use Rattle.std.specs.Prelude.{◌≡◌, ◌≤◌, ◌<◌, ◌+◌, position, vec_len, vec_capacity};
ghost use Rattle.keeper_rows.specs.Keys.{has_key, put, dropped};

use keeper_rows::Keyed;
use keeper_rules::place_past;
use std::cmp::Ordering;

/// The place of the first row with this key.
fn place_of<R: Keyed>(rows: &[R], key: &R::Key) -> Option<usize>
    ensures { result ≡ position (has_key R.Key.cmp R.key key.now) rows.now }
{
    rows.iter()
        .position(|row| row.key().cmp(key) == Ordering::Equal)
}

/// Replaces the first row of the row's key, or places the row by its key. It takes no memory.
pub(crate) fn put_row<R: Keyed + Drop>(rows: &mut Vec<R>, row: R)
    requires room { vec_len rows.old < vec_capacity rows.old }
    ensures items { rows.new.items ≡ put R.Key.cmp R.key row rows.old.items }
    ensures len { vec_len rows.new ≤ vec_len rows.old + 1 }
    ensures capacity { vec_capacity rows.old ≤ vec_capacity rows.new }
{
    match place_of(rows.as_slice(), row.key()) {
        Some(at) => rows[at] = row,
        None => {
            let at = place_past(rows.as_slice(), row.key());
            let _ = rows.insert(at, row);
        }
    }
}

/// Takes the first row of this key away, where there is one.
pub(crate) fn drop_row<R: Keyed + Drop>(rows: &mut Vec<R>, key: &R::Key)
    ensures items { rows.new.items ≡ dropped R.Key.cmp R.key key.now rows.old.items }
    ensures len { vec_len rows.new ≤ vec_len rows.old }
    ensures capacity { vec_capacity rows.old ≤ vec_capacity rows.new }
{
    if let Some(at) = place_of(rows.as_slice(), key) {
        let _row = rows.remove(at);
    }
}
