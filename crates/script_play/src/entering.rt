ghost use Rattle.std.specs.Prelude.{◌≡◌, ◌-◌, ◌^◌, ◌++◌, [], ◌∷◌, true, OnOk, IfOk};
ghost use Rattle.facts.specs.Realms.{has_realm};
ghost use Rattle.hall_answers.specs.HasSerials.{HasSerials};
ghost use Rattle.reply_words.specs.Words.{words};
ghost use Rattle.login_hall.specs.Begun.{solution_of};
ghost use Rattle.login_hall.specs.HallState.{facts_of};
ghost use Rattle.login_hall.specs.Legal.{entry_due, Raises};
ghost use Rattle.script_play.specs.Play.{entry_text};

use facts::{Reply, Solved};
use login_base::{Draws, Memory, Steps, discard};
use login_hall::{Begun, Hall};
use reply_words::words_of;
use std::alloc::Global;
use std::sync::ledger::Ledger;

/// The solved ask of one that was begun: the hash of its password is made here.
pub(crate) fn solve(begun: Begun) -> Solved
    ensures { result ≡ solution_of begun }
{
    match begun {
        Begun::Work(work) => work.solve(),
        Begun::Ready(solved) => solved,
    }
}

fn text_of(alloc: Global, reply: &Reply) -> Result<Vec<u8>, Memory>
    ensures { IfOk result (λ text. text.items ≡ words reply.now ++ 10 ∷ []) }
{
    let mut text = words_of(alloc, reply)?;
    text.push(b'\n')?;
    Ok(text)
}

/// Adds the entry that a solved ask is due, and answers its text.
pub(crate) fn enter<L: Ledger>(
    alloc: Global,
    hall: &mut Hall,
    moment: u64,
    draws: Draws,
    solved: Solved,
    steps: &mut Steps<L>,
) -> Result<Vec<u8>, Memory>
    requires realm { has_realm (facts_of hall.old) ≡ true }
    requires serials { HasSerials (facts_of hall.old) (2 ^ 63 - 8) }
    ensures base { hall.new.base ≡ hall.old.base }
    ensures journal { OnOk result (hall.new.journal
        ≡ hall.old.journal ++ entry_due hall.old.base hall.old.journal 0 moment draws solved ∷ []) }
    ensures text { IfOk result (λ text. text.items
        ≡ entry_text (entry_due hall.old.base hall.old.journal 0 moment draws solved)) }
    ensures realm { has_realm (facts_of hall.new) ≡ true }
    ensures raises { OnOk result (Raises (facts_of hall.old) (facts_of hall.new)) }
{
    let proposal = hall.propose(0, moment, draws, solved, steps)?;
    let reply = hall.adopt(proposal);
    let text = text_of(alloc, &reply);
    discard(reply);
    text
}
