ghost use Rattle.std.specs.Prelude.{◌≡◌};
ghost use Rattle.std.specs.Option.{option_copied};
ghost use Rattle.facts.specs.Accounts.{account_named, name_of, roles_of, is_disabled};

use fact_walks::{AccountHold, AccountPick, Pick, last_by_account, last_held_by_account};
use facts::{Fact, Facts, Hold, Subject};
use login_base::{Name, Sequence, Steps, UserId};
use std::sync::ledger::Ledger;

/// Picks the user who is put under a name.
#[derive(Clone, Copy)]
struct UserPutAs<'a> {
    name: &'a Name,
}

impl<'a> Pick for UserPutAs<'a> {
    ghost use Rattle.facts.specs.Accounts.{put_as};
    ghost use Rattle.facts.specs.Subjects.{is_account};
    ghost use Rattle.fact_scans.specs.About.{of_name};

    type Out = UserId;

    ghost pick = { λ p. put_as p.name.now };

    ghost about = { λ _. is_account };

    fn of(&self, fact: &Fact) -> Option<UserId> {
        match fact {
            Fact::UserPut { user, name, .. } if *name == *self.name => Some(*user),
            _ => None,
        }
    }

    fn is_about(&self, subject: Subject) -> bool {
        subject.is_account()
    }

    ghost only = { λ p. of_name p.name.now };
}

impl<'a> AccountPick for UserPutAs<'a> {
    ghost use Rattle.fact_scans.specs.About.{of_name};

    ghost only_of_accounts = { λ p. of_name p.name.now };
}

/// The account of a name.
#[tactic(auto, unfolding(facts::specs::Accounts::account_named))]
pub fn account_named<L: Ledger>(
    facts: &Facts<'_>,
    name: &Name,
    steps: &mut Steps<L>,
) -> Option<UserId>
    ensures value { result ≡ account_named name.now facts.now }
{
    last_by_account(facts, &UserPutAs { name }, steps)
}

/// Finds the name that a user is put under.
#[derive(Clone, Copy, Debug)]
struct NamePut {
    user: UserId,
}

impl Hold for NamePut {
    ghost use Rattle.facts.specs.Accounts.{name_put};
    ghost use Rattle.facts.specs.Subjects.{is_of_user};
    ghost use Rattle.fact_scans.specs.About.{of_users_name};

    type Held = Name;

    ghost held = { λ p. name_put p.user };

    ghost about = { λ p. is_of_user p.user };

    fn of<'a>(&self, fact: &'a Fact) -> Option<&'a Name> {
        match fact {
            Fact::UserPut { user, name, .. } if user.0 == self.user.0 => Some(name),
            _ => None,
        }
    }

    fn is_about(&self, subject: Subject) -> bool {
        subject.is_of_user(self.user)
    }

    ghost only = { λ p. of_users_name p.user };
}

impl AccountHold for NamePut {
    ghost use Rattle.facts.specs.Subjects.{subject_of};
    ghost use Rattle.fact_scans.specs.About.{of_none, of_users_name};

    ghost only_of_accounts = { λ p fact h. of_users_name p.user fact (of_none p.user (subject_of fact) h) };
}

/// The name of a user.
#[tactic(auto, unfolding(facts::specs::Accounts::name_of))]
pub fn name_of<'a, L: Ledger>(
    facts: &Facts<'a>,
    user: UserId,
    steps: &mut Steps<L>,
) -> Option<&'a Name>
    ensures value { option_copied result ≡ name_of user facts.now }
{
    last_held_by_account(facts, &NamePut { user }, steps)
}

/// Finds the roles that a user is put with.
#[derive(Clone, Copy, Debug)]
struct RolesPut {
    user: UserId,
}

impl Hold for RolesPut {
    ghost use Rattle.facts.specs.Accounts.{roles_put};
    ghost use Rattle.facts.specs.Subjects.{is_of_user};
    ghost use Rattle.fact_scans.specs.About.{of_roles};

    type Held = Sequence<Name>;

    ghost held = { λ p. roles_put p.user };

    ghost about = { λ p. is_of_user p.user };

    fn of<'a>(&self, fact: &'a Fact) -> Option<&'a Sequence<Name>> {
        match fact {
            Fact::UserPut { user, roles, .. } if user.0 == self.user.0 => Some(roles),
            _ => None,
        }
    }

    fn is_about(&self, subject: Subject) -> bool {
        subject.is_of_user(self.user)
    }

    ghost only = { λ p. of_roles p.user };
}

impl AccountHold for RolesPut {
    ghost use Rattle.facts.specs.Subjects.{subject_of};
    ghost use Rattle.fact_scans.specs.About.{of_none, of_roles};

    ghost only_of_accounts = { λ p fact h. of_roles p.user fact (of_none p.user (subject_of fact) h) };
}

/// The roles of a user.
#[tactic(auto, unfolding(facts::specs::Accounts::roles_of))]
pub fn roles_of<'a, L: Ledger>(
    facts: &Facts<'a>,
    user: UserId,
    steps: &mut Steps<L>,
) -> Option<&'a Sequence<Name>>
    ensures value { option_copied result ≡ roles_of user facts.now }
{
    last_held_by_account(facts, &RolesPut { user }, steps)
}

/// Picks whether a user is disabled or enabled.
#[derive(Clone, Copy, Debug)]
struct DisabledBy {
    user: UserId,
}

impl Pick for DisabledBy {
    ghost use Rattle.facts.specs.Accounts.{disabled_by};
    ghost use Rattle.facts.specs.Subjects.{is_of_user};
    ghost use Rattle.fact_scans.specs.About.{of_disabling};

    type Out = bool;

    ghost pick = { λ p. disabled_by p.user };

    ghost about = { λ p. is_of_user p.user };

    fn of(&self, fact: &Fact) -> Option<bool> {
        match fact {
            Fact::Disabled { user } if user.0 == self.user.0 => Some(true),
            Fact::Enabled { user } if user.0 == self.user.0 => Some(false),
            _ => None,
        }
    }

    fn is_about(&self, subject: Subject) -> bool {
        subject.is_of_user(self.user)
    }

    ghost only = { λ p. of_disabling p.user };
}

impl AccountPick for DisabledBy {
    ghost use Rattle.facts.specs.Subjects.{subject_of};
    ghost use Rattle.fact_scans.specs.About.{of_none, of_disabling};

    ghost only_of_accounts = { λ p fact h. of_disabling p.user fact (of_none p.user (subject_of fact) h) };
}

/// Whether a user is disabled: the last fact that disables or enables it disables it.
#[tactic(auto, unfolding(facts::specs::Accounts::is_disabled))]
pub fn is_disabled<L: Ledger>(facts: &Facts<'_>, user: UserId, steps: &mut Steps<L>) -> bool
    ensures value { result ≡ is_disabled user facts.now }
{
    last_by_account(facts, &DisabledBy { user }, steps).unwrap_or(false)
}
