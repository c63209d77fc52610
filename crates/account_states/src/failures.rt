ghost use Rattle.std.specs.Prelude.{◌≡◌};
ghost use Rattle.lockout.specs.Standing.{struck, no_failures};
ghost use Rattle.account_states.specs.Standings.{no_facts};

use crate::policy::ValidPolicy;
use lockout::Standing;
use login_base::Moment;

/// What the failures of a user have come to, and the policy by which the next one counts.
#[derive(Clone, Copy, Debug)]
pub struct Failures {
    pub policy: ValidPolicy,
    pub standing: Standing,
}

impl Failures {
    /// Before the first fact.
    pub(crate) fn none() -> Failures
        ensures { result ≡ no_facts }
    {
        Failures {
            policy: ValidPolicy::builtin(),
            standing: Standing::default(),
        }
    }

    /// One more failure.
    pub(crate) fn strike(&mut self, moment: Moment)
        ensures { self.new ≡ record self.old { standing = struck self.old.policy moment self.old.standing } }
    {
        self.standing = self.policy.strike(&self.standing, moment);
    }

    /// Forgets all failures.
    pub(crate) fn clear(&mut self)
        ensures { self.new ≡ record self.old { standing = no_failures } }
    {
        self.standing.clear();
    }
}
