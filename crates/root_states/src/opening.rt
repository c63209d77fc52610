ghost use Rattle.std.specs.Prelude.{◌≡◌};
ghost use Rattle.facts.specs.Roots.{opens_known};

use facts::{Fact, Opening};
use login_base::Moment;

/// Whether a fact opens a tab that is known at the moment `now`.
pub(crate) fn opens_known(fact: &Fact, now: Moment) -> bool
    ensures { result ≡ opens_known now fact.now }
{
    match fact {
        Fact::Opened {
            version,
            level,
            life,
            moment,
            ..
        } => {
            let opening = Opening {
                version: *version,
                level: *level,
                life: *life,
                moment: *moment,
            };
            opening.is_known(now)
        }
        _ => false,
    }
}
