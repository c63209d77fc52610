ghost use Rattle.std.specs.Prelude.{◌≡◌, [], map};
ghost use Rattle.std.specs.Option.{option_copied};
ghost use Rattle.conditions.specs.Setup.{configured, kind_configured, step_setup, setup_of};
ghost use Rattle.conditions.specs.Setups.{setups_of, with_setup, are_configured};

use crate::account::AccountView;
use crate::secret_kind::secret_of;
use flow_tree::{Body, Exec, Kind, Requirement};

/// What an execution is to a condition beside it.
#[derive(Clone, Copy, Debug, PartialEq, Eq)]
pub struct Setup {
    /// It is required, and no condition.
    pub required: bool,
    /// It is an alternative, and no condition.
    pub offered: bool,
    /// The user has set it up.
    pub configured: bool,
}

impl Setup {
    fn of_step(requirement: Requirement, configured: bool) -> Setup
        ensures { result ≡ step_setup requirement configured }
    {
        Setup {
            required: requirement.is_required(),
            offered: requirement.is_alternative(),
            configured,
        }
    }
}

/// The executions beside a condition, taken together.
#[derive(Clone, Copy, Debug, PartialEq, Eq)]
pub struct Setups {
    /// Some execution is required.
    pub required: bool,
    /// Each that is required is configured.
    pub each_configured: bool,
    /// Some alternative is configured.
    pub offer_configured: bool,
}

impl Setups {
    fn empty() -> Setups
        ensures { result ≡ setups_of [] }
    {
        Setups {
            required: false,
            each_configured: true,
            offer_configured: false,
        }
    }

    fn with(self, setup: Setup) -> Setups
        ensures { result ≡ with_setup self setup }
    {
        Setups {
            required: self.required || setup.required,
            each_configured: self.each_configured && (!setup.required || setup.configured),
            offer_configured: self.offer_configured || (setup.offered && setup.configured),
        }
    }

    fn are_configured(self) -> bool
        ensures { result ≡ are_configured self }
    {
        if self.required {
            self.each_configured
        } else {
            self.offer_configured
        }
    }
}

/// Whether the user has set up what an authenticator of this kind rests on.
pub fn kind_configured(account: &AccountView, kind: Kind) -> bool
    ensures value { result ≡ kind_configured account.now kind }
{
    match secret_of(kind) {
        Some(secret) => account.has(secret),
        None => true,
    }
}

#[cycle(setting)]
fn setup_of(account: &AccountView, exec: &Exec) -> Setup
    ensures { result ≡ setup_of account.now exec.now }
{
    match &exec.body {
        Body::Auth(kind) => Setup::of_step(exec.requirement, kind_configured(account, *kind)),
        Body::Cond(_) => Setup {
            required: false,
            offered: false,
            configured: false,
        },
        Body::Sub(execs) => {
            let setups = setups_of(account, execs.as_slice());
            Setup::of_step(exec.requirement, setups.are_configured())
        }
    }
}

#[cycle(setting)]
fn setups_of(account: &AccountView, execs: &[Exec]) -> Setups
    ensures { result ≡ setups_of (map (setup_of account.now) execs.now) }
{
    let mut all = Setups::empty();
    for exec in execs {
        all = all.with(setup_of(account, exec));
    }
    all
}

/// Whether the user has set up what the executions beside a condition ask for: each required one
/// that isn't a condition, or where there is none some alternative. A subflow asks for what its
/// own executions do. It is false where the user is unknown.
pub fn configured(account: Option<&AccountView>, siblings: &[Exec]) -> bool
    ensures value { result ≡ configured (option_copied account.entry) siblings.now }
{
    match account {
        Some(account) => setups_of(account, siblings).are_configured(),
        None => false,
    }
}
