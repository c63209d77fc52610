ghost use Rattle.std.specs.Prelude.{◌≡◌, IfOk};
ghost use Rattle.admin_asks.specs.Require.{answer_to_require, due_require};

use crate::named::{check_user, done};
use facts::{Action, Fact};
use hall_answers::{Answer, Setting, refused};
use login_base::{Memory, Name, Sequence, Steps, UserId};
use std::alloc::Global;
use std::sync::ledger::Ledger;

/// The action is required of the user from now on.
fn answer_to_require(
    alloc: Global,
    name: &Name,
    kind: Action,
    user: UserId,
) -> Result<Answer, Memory>
    ensures { IfOk result (λ answer. answer ≡ answer_to_require name.now kind user) }
{
    let mut added = Sequence::new(alloc);
    added.push(Fact::ActionSet { user, kind })?;
    done(alloc, name, added)
}

/// What it is due to require an action of a user.
#[tactic(auto, unfolding(crate::specs::Require::due_require))]
pub(crate) fn due_require<L: Ledger>(
    setting: &Setting<'_>,
    name: &Name,
    kind: Action,
    steps: &mut Steps<L>,
) -> Result<Answer, Memory>
    ensures { IfOk result (λ answer. answer ≡ due_require setting.now name.now kind) }
{
    let facts = setting.facts();
    match check_user(&facts, name, steps) {
        Ok(user) => answer_to_require(setting.alloc, name, kind, user),
        Err(refusal) => refused(setting.alloc, &facts, None, refusal, steps),
    }
}
