ghost use Rattle.std.specs.Prelude.{◌≡◌, ◌-◌, ◌^◌, [], false, OnOk, IfOk};
ghost use Rattle.hall_answers.specs.HasSerials.{HasSerials};
ghost use Rattle.login_hall.specs.Legal.{Raises};
ghost use Rattle.script_lines.specs.Lines.{is_skipped};
ghost use Rattle.script_play.specs.Base.{base_of};
ghost use Rattle.script_play.specs.Play.{facts_in, is_bad, bad_handle, begun_text, after, line_brings};

use crate::begun::{BegunAsk, is_begun, take_begun};
use crate::entering::{enter, solve};
use facts::Ask;
use login_base::{Draws, Memory, Name, Steps, discard};
use login_hall::Hall;
use realm_data::Realm;
use script_lines::{ScriptLine, Step, script_line};
use std::alloc::Global;
use std::marker::Model;
use std::sync::ledger::Ledger;

/// A hall that plays a script, and the asks that wait to be settled.
#[derive(Drop)]
pub struct Player {
    alloc: Global,
    hall: Hall,
    begun: Vec<BegunAsk>,
}

impl Model for Player {
    ghost use Rattle.std.specs.Prelude.{◌≡◌, true};
    ghost use Rattle.std.specs.Coded.{codes};
    ghost use Rattle.facts.specs.Realms.{has_realm};
    ghost use Rattle.flow_tree.specs.contracts.exec.Exec as exec;
    ghost use Rattle.login_hall.specs.HallState.{facts_of};
    ghost use Rattle.script_play.specs.Play.{PlayState};

    ghost Value = { PlayState };

    ghost coded = { Prim.hlevel (codes, exec.the_row.coded) };

    ghost view = { λ p. record {
      base = p.hall.base;
      journal = p.hall.journal;
      begun = p.begun.items;
    } };

    ghost invariant = { λ p. has_realm (facts_of p.hall) ≡ true };
}

fn is_bad(ask: &Ask) -> bool
    ensures { result ≡ is_bad ask.now }
{
    match ask {
        Ask::Bad { .. } => true,
        _ => false,
    }
}

/// The ask of a line whose handle can't be begun, or can't be settled.
fn bad_handle(alloc: Global) -> Result<Ask, Memory>
    ensures { IfOk result (λ ask. ask ≡ bad_handle) }
{
    Ok(Ask::Bad {
        at: Name::known(alloc, b"h")?,
    })
}

fn begun_text(alloc: Global, handle: u64) -> Result<Vec<u8>, Memory>
    ensures { IfOk result (λ text. text.items ≡ begun_text handle) }
{
    let mut text = Vec::from_slice(alloc, b"begun h=")?;
    let number = handle.to_string(alloc)?;
    text.extend_from_slice(number.as_bytes())?;
    text.push(b'\n')?;
    Ok(text)
}

impl Player {
    ghost use Rattle.script_play.specs.Play.{ask_brings, begin_brings, settle_brings, step_brings};
    ghost use Rattle.script_play.specs.Begun.{begun_under};

    /// A player whose hall has started with the given realm, or with the built-in one.
    pub fn start(alloc: Global, given: Option<Realm>) -> Result<Player, Memory>
        ensures base { IfOk result (λ player. player.base ≡ base_of given) }
        ensures journal { IfOk result (λ player. player.journal ≡ []) }
        ensures begun { IfOk result (λ player. player.begun ≡ []) }
        ensures serials { OnOk result (HasSerials (base_of given) (2 ^ 62)) }
    {
        let mut hall = Hall::make(alloc)?;
        let start = hall.start(given)?;
        hall.started(start);
        Ok(Player {
            alloc,
            hall,
            begun: Vec::new(alloc),
        })
    }

    /// The ask of a line is due at once.
    fn ask<L: Ledger>(
        &mut self,
        moment: u64,
        draws: Draws,
        ask: Ask,
        steps: &mut Steps<L>,
    ) -> Result<Vec<u8>, Memory>
        requires serials { HasSerials (facts_in self.old) (2 ^ 63 - 8) }
        ensures text { IfOk result (λ text. text.items ≡ (ask_brings self.old moment draws ask).text) }
        ensures after { OnOk result (self.new ≡ after self.old (ask_brings self.old moment draws ask)) }
        ensures raises { OnOk result (Raises (facts_in self.old) (facts_in self.new)) }
    {
        let solved = solve(self.hall.begin(ask, &draws));
        enter(self.alloc, &mut self.hall, moment, draws, solved, steps)
    }

    /// The ask waits under the handle.
    fn begin(&mut self, draws: &Draws, handle: u64, ask: Ask) -> Result<Vec<u8>, Memory>
        ensures text { IfOk result (λ text. text.items ≡ (begin_brings self.old draws.now handle ask).text) }
        ensures after { OnOk result (self.new ≡ after self.old (begin_brings self.old draws.now handle ask)) }
    {
        let solved = solve(self.hall.begin(ask, draws));
        self.begun.push(BegunAsk { handle, solved })?;
        begun_text(self.alloc, handle)
    }

    /// The ask that waited under the handle is due.
    fn settle<L: Ledger>(
        &mut self,
        moment: u64,
        draws: Draws,
        handle: u64,
        steps: &mut Steps<L>,
    ) -> Result<Vec<u8>, Memory>
        requires serials { HasSerials (facts_in self.old) (2 ^ 63 - 8) }
        ensures text { IfOk result (λ text. text.items
            ≡ (settle_brings self.old moment draws handle (begun_under handle self.old.begun)).text) }
        ensures after { OnOk result (self.new
            ≡ after self.old (settle_brings self.old moment draws handle (begun_under handle self.old.begun))) }
        ensures raises { OnOk result (Raises (facts_in self.old) (facts_in self.new)) }
    {
        match take_begun(&mut self.begun, handle) {
            Some(BegunAsk { solved, .. }) => {
                enter(self.alloc, &mut self.hall, moment, draws, solved, steps)
            }
            None => self.ask(moment, draws, bad_handle(self.alloc)?, steps),
        }
    }

    /// What a line does is done.
    #[tactic(auto, unfolding(crate::specs::Play::step_brings))]
    fn step<L: Ledger>(
        &mut self,
        moment: u64,
        draws: Draws,
        step: Step,
        steps: &mut Steps<L>,
    ) -> Result<Vec<u8>, Memory>
        requires serials { HasSerials (facts_in self.old) (2 ^ 63 - 8) }
        ensures text { IfOk result (λ text. text.items ≡ (step_brings self.old moment draws step).text) }
        ensures after { OnOk result (self.new ≡ after self.old (step_brings self.old moment draws step)) }
        ensures raises { OnOk result (Raises (facts_in self.old) (facts_in self.new)) }
    {
        match step {
            Step::Ask(ask) => self.ask(moment, draws, ask, steps),
            Step::Begin { handle, ask } => {
                if is_begun(self.begun.as_slice(), handle) {
                    discard(ask);
                    return self.ask(moment, draws, bad_handle(self.alloc)?, steps);
                }
                if is_bad(&ask) {
                    return self.ask(moment, draws, ask, steps);
                }
                self.begin(&draws, handle, ask)
            }
            Step::Settle { handle } => self.settle(moment, draws, handle, steps),
        }
    }

    /// Answers one line, which isn't skipped: its text, with a newline.
    #[tactic(auto, unfolding(crate::specs::Play::line_brings))]
    pub fn answer<L: Ledger>(
        &mut self,
        line: &[u8],
        steps: &mut Steps<L>,
    ) -> Result<Vec<u8>, Memory>
        requires serials { HasSerials (facts_in self.old) (2 ^ 63 - 8) }
        requires wanted { is_skipped line.now ≡ false }
        ensures text { IfOk result (λ text. text.items ≡ (line_brings self.old line.now).text) }
        ensures after { OnOk result (self.new ≡ after self.old (line_brings self.old line.now)) }
        ensures raises { OnOk result (Raises (facts_in self.old) (facts_in self.new)) }
    {
        let ScriptLine {
            moment,
            draws,
            step,
        } = script_line(self.alloc, line)?;
        self.step(moment, draws, step, steps)
    }
}
