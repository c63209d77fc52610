ghost use Rattle.std.specs.Prelude.{◌≡◌};
ghost use Rattle.std.specs.Option.{option_copied, option_or};
ghost use Rattle.conditions.specs.Truth.{fresh, moment_of, last_moment};

use login_base::Sequence;

/// The levels that a live session has reached, each with the moment in milliseconds.
#[derive(Debug, Drop)]
pub struct LevelView {
    pub levels: Sequence<(u32, u64)>,
}

/// The moment at which the level was reached last, once this one is looked at too.
fn later(last: Option<u64>, reached: (u32, u64), level: u32) -> Option<u64>
    ensures { result ≡ option_or (moment_of level reached) last }
{
    if reached.0 == level {
        Some(reached.1)
    } else {
        last
    }
}

/// The moment at which the level was reached last.
fn last_moment(levels: &[(u32, u64)], level: u32) -> Option<u64>
    ensures { result ≡ last_moment level levels.now }
{
    let mut last = None;
    for reached in levels {
        last = later(last, *reached, level);
    }
    last
}

/// Whether the level was reached less than `age` seconds before `now`, a moment in milliseconds.
/// It is false where there is no live session.
pub fn fresh(levels: Option<&LevelView>, level: u32, age: u64, now: u64) -> bool
    ensures value { result ≡ fresh (option_copied levels.entry) level age now }
{
    let Some(view) = levels else {
        return false;
    };
    match last_moment(view.levels.as_slice(), level) {
        Some(moment) => now.saturating_sub(moment) / 1000 < age,
        None => false,
    }
}
