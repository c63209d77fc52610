ghost use Rattle.std.specs.Prelude.{◌≡◌};
ghost use Rattle.lockout.specs.Standing.{struck};
ghost use Rattle.realm_data.specs.RealmBuiltin.{builtin_lockout};

use lockout::{Mode, Policy, Standing};
use login_base::Moment;
use realm_data::Realm;
use std::marker::Model;

/// A lockout policy whose numbers lie in their ranges.
#[derive(Clone, Copy, Debug)]
pub struct ValidPolicy {
    policy: Policy,
}

impl Model for ValidPolicy {
    ghost use Rattle.lockout.specs.declared.policy.Policy.{Policy};
    ghost use Rattle.lockout.specs.Policy.{IsPolicy};

    ghost Value = { Policy };

    ghost view = { λ v. v.policy };

    ghost invariant = { λ v. IsPolicy v.policy };

    ghost inverse = { λ policy. record { policy = policy } };
}

impl ValidPolicy {
    /// The policy of a realm.
    pub(crate) fn of(realm: &Realm) -> ValidPolicy
        ensures { result ≡ realm.now.lockout }
    {
        ValidPolicy {
            policy: *realm.lockout(),
        }
    }

    /// The policy of the built-in realm.
    pub(crate) fn builtin() -> ValidPolicy
        ensures { result ≡ builtin_lockout }
    {
        ValidPolicy {
            policy: Policy {
                mode: Mode::Temporary,
                max_failures: 3,
                wait_increment: 60,
                max_wait: 900,
                failure_reset: 43_200,
                quick_check: 1_000,
                quick_wait: 60,
            },
        }
    }

    /// The standing after a failure.
    pub(crate) fn strike(&self, standing: &Standing, moment: Moment) -> Standing
        ensures { result ≡ struck self.now moment standing.now }
    {
        standing.struck_by(&self.policy, moment)
    }
}
