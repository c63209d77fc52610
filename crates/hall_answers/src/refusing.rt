ghost use Rattle.std.specs.Prelude.{◌≡◌, IfOk};
ghost use Rattle.hall_answers.specs.Refusals.{who_named, what_of, refused};

use crate::answer::Answer;
use crate::refusal::Refusal;
use fact_scans::name_of;
use facts::{Facts, Rule, What, Who};
use login_base::{Duplicate, Memory, Name, Steps, TabKey, UserId};
use std::alloc::Global;
use std::sync::ledger::Ledger;

/// A user by name.
pub fn who_named<L: Ledger>(
    alloc: Global,
    facts: &Facts<'_>,
    user: UserId,
    steps: &mut Steps<L>,
) -> Result<Who, Memory>
    ensures ok { IfOk result (λ who. who ≡ who_named facts.now user) }
{
    let name = match name_of(facts, user, steps) {
        Some(name) => name.duplicate(alloc)?,
        None => Name::known(alloc, b"unknown")?,
    };
    Ok(Who { id: user, name })
}

/// What a refusal says.
fn what_of<L: Ledger>(
    alloc: Global,
    facts: &Facts<'_>,
    refusal: Refusal,
    steps: &mut Steps<L>,
) -> Result<What, Memory>
    ensures { IfOk result (λ what. what ≡ what_of facts.now refusal) }
{
    Ok(match refusal {
        Refusal::WrongKey => What::AdminRefused {
            rule: Rule::WrongKey,
        },
        Refusal::UserTaken => What::AdminRefused {
            rule: Rule::UserTaken,
        },
        Refusal::TooManyUsers => What::AdminRefused {
            rule: Rule::TooManyUsers,
        },
        Refusal::NoSuchUser => What::AdminRefused {
            rule: Rule::NoSuchUser,
        },
        Refusal::NothingThere => What::AdminRefused {
            rule: Rule::NothingThere,
        },
        Refusal::AccountDisabled => What::AdminRefused {
            rule: Rule::AccountDisabled,
        },
        Refusal::RealmRefused => What::AdminRefused {
            rule: Rule::RealmRefused,
        },
        Refusal::TooManyTokens => What::AdminRefused {
            rule: Rule::TooManyTokens,
        },
        Refusal::NoSuchSession => What::AdminRefused {
            rule: Rule::NoSuchSession,
        },
        Refusal::UnknownClient => What::UnknownClient,
        Refusal::LevelUnknown => What::LevelUnknown,
        Refusal::TooManyRoots => What::TooManyRoots { count: 65_536 },
        Refusal::TooManyTabs { count } => What::TooManyTabs { count },
        Refusal::UnknownTab => What::UnknownTab,
        Refusal::TabExpired => What::TabExpired,
        Refusal::Stale { current } => What::Stale { current },
        Refusal::OtherUser { tab, session } => What::OtherUser {
            tab: who_named(alloc, facts, tab, steps)?,
            session: who_named(alloc, facts, session, steps)?,
        },
        Refusal::Finished => What::Finished,
        Refusal::NotAsked => What::NotAsked,
        Refusal::Locked { until } => What::Locked { until },
        Refusal::Disabled => What::Disabled,
        Refusal::CredentialMoved { had, now } => What::CredentialMoved { had, now },
        Refusal::TokenUnknown => What::TokenUnknown,
        Refusal::TokenSpent => What::TokenSpent,
        Refusal::TokenExpired { expiry } => What::TokenExpired { expiry },
    })
}

/// What a refused ask is due, in a tab or in none.
pub fn refused<L: Ledger>(
    alloc: Global,
    facts: &Facts<'_>,
    tab: Option<TabKey>,
    refusal: Refusal,
    steps: &mut Steps<L>,
) -> Result<Answer, Memory>
    ensures ok { IfOk result (λ answer. answer ≡ refused facts.now tab refusal) }
{
    Ok(Answer::only(alloc, tab, what_of(alloc, facts, refusal, steps)?))
}
