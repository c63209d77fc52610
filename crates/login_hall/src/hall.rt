ghost use Rattle.std.specs.Prelude.{◌≡◌, ◌<◌, ◌≤◌, ◌+◌, ◌-◌, ◌^◌, [], ◌∷◌, ◌++◌, ◌↔◌, IsTrue, true, OnOk, IfOk, vec_len, vec_capacity};
ghost use Rattle.facts.specs.declared.fact.Fact.TheVariants.{Mark};
ghost use Rattle.asks.specs.Passwords.{password_use};
ghost use Rattle.facts.specs.Realms.{has_realm, last_version};
ghost use Rattle.facts.specs.Serials.{last_stored_serial};
ghost use Rattle.login_hall.specs.Begun.{solution_of, is_work};
ghost use Rattle.login_hall.specs.Found.{solved_of, has_password};
ghost use Rattle.login_hall.specs.Growth.{last_moment};
ghost use Rattle.login_hall.specs.HallState.{facts_of, IsUnchanged};
ghost use Rattle.login_hall.specs.Legal.{Follows, entry_at, entry_due, Raises, RaisesAtStart};
ghost use Rattle.hall_answers.specs.HasSerials.{HasSerials};
ghost use Rattle.login_hall.specs.Start.{IsStart};

use crate::begun::Begun;
use crate::due::due;
use crate::found::begun;
use crate::proposal::Proposal;
use crate::start::{Start, start_facts};
use facts::{Ask, Chronicle, Entry, Fact, Realm, Reply, Solved};
use hall_answers::{Answer, Setting};
use login_base::{Draws, Duplicate, Memory, Moment, Steps, discard, put};
use std::alloc::Global;
use std::marker::{Brand, Model};
use std::sync::ledger::{Blank, Ledger};

/// The last serial after which an ask finds those that it may need.
const LAST_SERIAL: u64 = (1 << 63) - 8;

/// A base of facts, and a journal of the asks over it that is legal: each entry is the one that
/// was due.
#[derive(Drop)]
pub struct Hall {
    alloc: Global,
    facts: Chronicle,
    /// So many facts are the base's.
    based: usize,
    journal: Vec<Entry>,
    /// The last used moment.
    last: Moment,
}

impl Model for Hall {
    ghost use Rattle.std.specs.Prelude.{◌-◌, take, vec_len, vec_capacity};
    ghost use Rattle.std.specs.Coded.{codes};
    ghost use Rattle.flow_tree.specs.contracts.exec.Exec as exec;
    ghost use Rattle.login_hall.specs.Begun.{solution_of, is_work};
    ghost use Rattle.login_hall.specs.Found.{solved_of, has_password};
    ghost use Rattle.login_hall.specs.HallState.{HallState, IsSound};

    ghost Value = { HallState };

    ghost coded = { Prim.hlevel (codes, exec.the_row.coded) };

    ghost view = { λ h. record {
      base = take h.based h.facts.list;
      journal = h.journal.items;
      waiting = h.facts.waiting;
      room = vec_capacity h.journal - vec_len h.journal;
    } };

    ghost invariant = { λ h. IsSound h.facts.list h.based h.journal.items h.last };
}

/// The proposal of an answer.
fn proposal_of(
    alloc: Global,
    caller: u32,
    moment: Moment,
    draws: Draws,
    solved: Solved,
    answer: Answer,
) -> Result<Proposal, Memory>
    ensures { IfOk result (λ p. p ≡ record {
      caller = caller;
      moment = moment;
      draws = draws;
      solved = solved;
      reply = answer.reply;
      added = answer.added;
    }) }
{
    match answer.reply.duplicate(alloc) {
        Ok(reply) => {
            let Answer { reply: due, added } = answer;
            let entry = Entry {
                caller,
                moment,
                draws,
                solved,
                reply: due,
                added,
            };
            Ok(Proposal { entry, reply })
        }
        Err(memory) => {
            discard(answer);
            discard(solved);
            Err(memory)
        }
    }
}

/// The proposal of an ask at a moment.
#[tactic(auto, using(crate::proofs::SerialLemmas::raises_at))]
fn proposal_at<L: Ledger>(
    alloc: Global,
    facts: &Chronicle,
    caller: u32,
    moment: Moment,
    draws: Draws,
    solved: Solved,
    steps: &mut Steps<L>,
) -> Result<Proposal, Memory>
    requires realm { has_realm facts.now.list ≡ true }
    requires serials { HasSerials facts.now.list (2 ^ 63 - 8) }
    ensures entry { IfOk result (λ p. p ≡ entry_at facts.now.list caller moment draws solved) }
    ensures raises { IfOk result (λ p. Raises facts.now.list (facts.now.list ++ p.added)) }
{
    let setting = Setting::at(alloc, facts, moment, &draws);
    match due(&setting, &solved, steps) {
        Ok(answer) => proposal_of(alloc, caller, moment, draws, solved, answer),
        Err(memory) => {
            discard(solved);
            Err(memory)
        }
    }
}

/// Makes room for an entry and its facts.
fn make_room(facts: &mut Chronicle, journal: &mut Vec<Entry>, added: &[Fact]) -> Result<(), Memory>
    ensures list { facts.new.list ≡ facts.old.list }
    ensures waiting { OnOk result (facts.new.waiting ≡ added.now) }
    ensures journal { journal.new.items ≡ journal.old.items }
    ensures len { vec_len journal.new ≡ vec_len journal.old }
    ensures room { OnOk result (vec_len journal.new < vec_capacity journal.new) }
{
    journal.reserve(1)?;
    facts.reserve(added)?;
    Ok(())
}

impl Hall {
    /// A hall whose base is one mark of zeros, with an empty journal.
    pub fn make(alloc: Global) -> Result<Hall, Memory>
        ensures base { IfOk result (λ hall. hall.base ≡ Mark 0 0 0 0 ∷ []) }
        ensures journal { IfOk result (λ hall. hall.journal ≡ []) }
    {
        let mark = Fact::Mark {
            tab_serial: 0,
            stored_serial: 0,
            used_moment: Moment::ZERO,
            stored_moment: Moment::ZERO,
        };
        let mut facts = Chronicle::make(alloc);
        facts.reserve(&[mark])?;
        facts.add();
        Ok(Hall {
            alloc,
            facts,
            based: 1,
            journal: Vec::new(alloc),
            last: Moment::ZERO,
        })
    }

    /// What a start adds to the base: a realm that isn't the one in force, or without one the
    /// built-in realm where none is, and then the users of the realm whose names have no account.
    pub fn start(&mut self, realm: Option<Realm>) -> Result<Start, Memory>
        requires fresh { self.old.journal ≡ [] }
        requires stored { last_stored_serial self.old.base ≤ 2 ^ 63 - 2 ^ 20 }
        requires version { last_version self.old.base ≤ 2 ^ 63 - 2 ^ 20 }
        ensures start { IfOk result (λ start. IsStart self.old.base realm start) }
        ensures waiting { IfOk result (λ start. self.new.waiting ≡ start) }
        ensures realm { IfOk result (λ start. has_realm (self.old.base ++ start) ≡ true) }
        ensures raises { IfOk result (λ start. RaisesAtStart self.old.base (self.old.base ++ start)) }
        ensures same { IsUnchanged self.old self.new }
    {
        let facts = start_facts::<Brand>(self.alloc, &self.facts, realm, Blank::new(1))?;
        self.facts.reserve(facts.as_slice())?;
        Ok(Start { facts })
    }

    /// Ends the base with the facts of the last start. It takes no memory.
    pub fn started(&mut self, start: Start)
        requires fresh { self.old.journal ≡ [] }
        requires waiting { self.old.waiting ≡ start }
        ensures base { self.new.base ≡ self.old.base ++ start }
        ensures journal { self.new.journal ≡ [] }
    {
        let Start { facts } = start;
        self.facts.add();
        self.based = self.facts.len();
        discard(facts);
    }

    /// Begins an ask: looks up what its password is to be checked against, or a salt for it. It
    /// decides nothing, and takes no memory.
    pub fn begin(&self, ask: Ask, draws: &Draws) -> Begun
        requires realm { has_realm (facts_of self.now) ≡ true }
        ensures solved { solution_of result ≡
            solved_of (facts_of self.now) (last_moment self.now.base self.now.journal) ask draws.now }
        ensures work { is_work result ≡ has_password (password_use ask) }
    {
        begun(self.alloc, &self.facts, self.last, ask, draws)
    }

    /// Whether the counters and the version leave numbers for one more ask.
    pub fn has_serials(&self) -> bool
        ensures room { IsTrue result ↔ HasSerials (facts_of self.now) (2 ^ 63 - 8) }
    {
        self.facts.last_tab_serial() <= LAST_SERIAL
            && self.facts.last_stored_serial() <= LAST_SERIAL
            && self.facts.last_version() <= LAST_SERIAL
    }

    /// The entry that an ask is due, for which all memory is taken here. It counts a step for each
    /// fact that it reads.
    pub fn propose<L: Ledger>(
        &mut self,
        caller: u32,
        moment: u64,
        draws: Draws,
        solved: Solved,
        steps: &mut Steps<L>,
    ) -> Result<Proposal, Memory>
        requires realm { has_realm (facts_of self.old) ≡ true }
        requires serials { HasSerials (facts_of self.old) (2 ^ 63 - 8) }
        ensures entry { IfOk result (λ p. p ≡ entry_due self.old.base self.old.journal caller moment draws solved) }
        ensures follows { IfOk result (λ p. Follows self.new.base self.new.journal p) }
        ensures waiting { IfOk result (λ p. self.new.waiting ≡ p.added) }
        ensures room { OnOk result (0 < self.new.room) }
        ensures raises { IfOk result (λ p. Raises (facts_of self.old) (facts_of self.old ++ p.added)) }
        ensures same { IsUnchanged self.old self.new }
    {
        let now = self.last.later(Moment::clamped(moment));
        let _below_the_end = now.millis();
        let proposal = proposal_at(self.alloc, &self.facts, caller, now, draws, solved, steps)?;
        let added = proposal.entry.added.as_slice();
        match make_room(&mut self.facts, &mut self.journal, added) {
            Ok(()) => Ok(proposal),
            Err(memory) => {
                discard(proposal);
                Err(memory)
            }
        }
    }

    /// Adds the entry that was proposed last, and answers its reply. It takes no memory.
    pub fn adopt(&mut self, proposal: Proposal) -> Reply
        requires follows { Follows self.old.base self.old.journal proposal }
        requires waiting { self.old.waiting ≡ proposal.added }
        requires room { 0 < self.old.room }
        ensures reply { result ≡ proposal.reply }
        ensures base { self.new.base ≡ self.old.base }
        ensures journal { self.new.journal ≡ self.old.journal ++ proposal ∷ [] }
        ensures facts { facts_of self.new ≡ facts_of self.old ++ proposal.added }
        ensures realm { has_realm (facts_of self.old) ≡ true → has_realm (facts_of self.new) ≡ true }
    {
        let Proposal { entry, reply } = proposal;
        self.last = entry.moment;
        self.facts.add();
        put(&mut self.journal, entry);
        reply
    }
}
