ghost use Rattle.std.specs.Prelude.{◌≡◌, IfOk};
ghost use Rattle.admin_asks.specs.Named.{check_user, done_text, done};

use fact_scans::account_named;
use facts::{Fact, Facts, What};
use hall_answers::{Answer, Refusal};
use login_base::{Memory, Name, Sequence, Steps, UserId, discard};
use std::alloc::Global;
use std::sync::ledger::Ledger;

/// An account has the name.
#[tactic(auto, unfolding(crate::specs::Named::check_user))]
pub(crate) fn check_user<L: Ledger>(
    facts: &Facts<'_>,
    name: &Name,
    steps: &mut Steps<L>,
) -> Result<UserId, Refusal>
    ensures { result ≡ check_user facts.now name.now }
{
    match account_named(facts, name, steps) {
        Some(user) => Ok(user),
        None => Err(Refusal::NoSuchUser),
    }
}

fn done_text(alloc: Global, name: &Name) -> Result<Sequence<u8>, Memory>
    ensures { IfOk result (λ text. text ≡ done_text name.now) }
{
    let mut text = Vec::new(alloc);
    text.extend_from_slice(b"done name=")?;
    text.extend_from_slice(name.as_bytes())?;
    Ok(Sequence::from_vec(text))
}

/// These facts are added, and it is told that it is done.
pub(crate) fn done(alloc: Global, name: &Name, added: Sequence<Fact>) -> Result<Answer, Memory>
    ensures { IfOk result (λ answer. answer ≡ done name.now added) }
{
    match done_text(alloc, name) {
        Ok(text) => Ok(Answer::plain(What::Told { text }, added)),
        Err(memory) => {
            discard(added);
            Err(memory)
        }
    }
}
