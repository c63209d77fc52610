ghost use Rattle.std.specs.Prelude.{◌≡◌, ◌-◌, ◌^◌, IfOk};
ghost use Rattle.asks.specs.declared.reply.What.TheVariants as whats;
ghost use Rattle.hall_answers.specs.Answers.{only};
ghost use Rattle.hall_answers.specs.HasSerials.{HasSerials};
ghost use Rattle.login_hall.specs.Due.{due_ask};

use admin_asks::due_admin;
use facts::{Ask, Solved, What};
use hall_answers::{Answer, Setting};
use login_base::{Duplicate, Memory, Name, Steps};
use root_asks::{due_logout, due_new_tab};
use std::alloc::Global;
use std::sync::ledger::Ledger;
use tab_asks::due_post;
use tab_pages::due_page;
use token_asks::{due_reset, due_verify};

/// What a malformed ask is due.
fn due_bad(alloc: Global, at: &Name) -> Result<Answer, Memory>
    ensures { IfOk result (λ answer. answer ≡ only None (whats.BadForm at.now)) }
{
    let at = at.duplicate(alloc)?;
    Ok(Answer::only(alloc, None, What::BadForm { at }))
}

/// What an ask is due in its setting: the one right reply, and the facts that it adds.
pub(crate) fn due<L: Ledger>(
    setting: &Setting<'_>,
    solved: &Solved,
    steps: &mut Steps<L>,
) -> Result<Answer, Memory>
    requires serials { HasSerials setting.now.facts (2 ^ 63 - 8) }
    ensures { IfOk result (λ answer. answer ≡ due_ask setting.now solved.now.ask solved.now.finding) }
{
    let finding = solved.finding();
    match solved.ask() {
        Ask::Bad { at } => due_bad(setting.alloc, at),
        Ask::NewTab(new) => due_new_tab(setting, new, steps),
        Ask::Page { root, tab } => due_page(setting, root, *tab, steps),
        Ask::Post(post) => due_post(setting, post, finding, steps),
        Ask::Admin { access, verb } => due_admin(setting, access, verb, finding, steps),
        Ask::Logout { root } => due_logout(setting, root, steps),
        Ask::Verify { key } => due_verify(setting, *key, steps),
        Ask::Reset { key, .. } => due_reset(setting, *key, finding, steps),
    }
}
