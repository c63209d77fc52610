ghost use Rattle.std.specs.Prelude.{◌≡◌, ◌+◌, ◌<◌, ◌≤◌, ◌^◌, vec_len, vec_capacity, [], ◌++◌, length, take, option_map, Some, None, IfOk, OnOk, OnErr, slice_get};
ghost use Rattle.std.specs.Option.{option_copied, option_or};
ghost use Rattle.facts.specs.Accounts.{account_facts};
ghost use Rattle.facts.specs.Kept.{account_places, notes_of, IsAwaited};
ghost use Rattle.facts.specs.Places.{last_of};
ghost use Rattle.facts.specs.Realms.{current_realm, last_version, realm_put};
ghost use Rattle.facts.specs.Serials.{last_tab_serial, last_stored_serial, last_known_serial};
ghost use Rattle.facts.specs.Subjects.{subject_of};

use crate::counters::{KnownSerial, StoredSerial, TabSerial, Version};
use crate::fact::Fact;
use crate::fold::{Fold, fold_in};
use crate::hold::last_held_in;
use crate::note::Note;
use crate::realm_put::RealmPut;
use crate::subject::Subject;
use login_base::{Duplicate, Memory, Steps};
use realm_data::Realm;
use std::alloc::Global;
use std::marker::Model;
use std::sync::ledger::Ledger;

/// Facts that wait to join a list, and what is kept beside them.
#[derive(Drop)]
pub(crate) struct Waiting {
    facts: Vec<Fact>,
    /// What is noted of each fact.
    notes: Vec<Note>,
    /// The places that the facts about accounts will have in the list.
    accounts: Vec<usize>,
    /// A copy of the realm that they put last.
    realm: Option<Realm>,
}

/// A list of facts, the oldest first, and the facts that wait to join it.
#[derive(Drop)]
pub struct Chronicle {
    alloc: Global,
    list: Vec<Fact>,
    /// What is noted of each fact.
    notes: Vec<Note>,
    /// The places of the facts about accounts.
    accounts: Vec<usize>,
    /// The last used serials of both counters.
    tab_serial: u64,
    stored_serial: u64,
    /// The greatest serial of a root or a tab.
    known_serial: u64,
    /// The version of the realm in force.
    version: u64,
    /// A copy of the realm in force.
    realm: Option<Realm>,
    waiting: Waiting,
}

impl Model for Chronicle {
    ghost use Rattle.std.specs.Prelude.{◌≤◌, ◌+◌, vec_len, vec_capacity};
    ghost use Rattle.std.specs.Coded.{codes};
    ghost use Rattle.flow_tree.specs.contracts.exec.Exec as exec;
    ghost use Rattle.facts.specs.Kept.{Kept, IsCounted, AreNotes, AreAccounts, IsAwaited};

    ghost Value = { Kept };

    ghost coded = { Prim.hlevel (codes, exec.the_row.coded) };

    ghost view = { λ c. record { list = c.list.items; waiting = c.waiting.facts.items } };

    ghost invariant = { λ c. (vec_len c.list + vec_len c.waiting.facts ≤ vec_capacity c.list) ×
        (vec_len c.notes + vec_len c.waiting.notes ≤ vec_capacity c.notes) ×
        (vec_len c.accounts + vec_len c.waiting.accounts ≤ vec_capacity c.accounts) ×
        AreNotes c.notes.items c.list.items × AreAccounts c.accounts.items c.list.items ×
        IsCounted c.list.items c.tab_serial c.stored_serial c.known_serial c.version c.realm ×
        IsAwaited c.list.items c.waiting };
}

/// Copies the facts into an empty list.
fn copy_into(alloc: Global, copies: &mut Vec<Fact>, facts: &[Fact]) -> Result<(), Memory>
    requires empty { copies.old.items ≡ [] }
    ensures ok { OnOk result (copies.new.items ≡ facts.now) }
{
    for fact in facts {
        copies.push(fact.duplicate(alloc)?)?;
    }
    Ok(())
}

/// Notes what is noted of the facts, where those before them name roots and tabs up to this serial.
fn note(notes: &mut Vec<Note>, known: u64, facts: &[Fact]) -> Result<(), Memory>
    requires empty { notes.old.items ≡ [] }
    requires len { vec_len notes.old ≡ 0 }
    ensures notes { OnOk result (notes.new.items ≡ notes_of known facts.now) }
    ensures len { OnOk result (vec_len notes.new ≡ length facts.now) }
{
    let mut last = known;
    for fact in facts {
        KnownSerial.after(&mut last, fact);
        notes.push(Note {
            subject: Subject::of(fact),
            known: last,
        })?;
    }
    Ok(())
}

/// Notes the places of the facts about accounts, where so many facts stand before these.
fn place_accounts(places: &mut Vec<usize>, before: usize, facts: &[Fact]) -> Result<(), Memory>
    requires empty { places.old.items ≡ [] }
    requires len { vec_len places.old ≡ 0 }
    requires room { before + length facts.now < 2 ^ 64 }
    ensures places { OnOk result (places.new.items ≡ account_places before facts.now) }
    ensures len { OnOk result (vec_len places.new ≤ length facts.now) }
{
    let mut place = before;
    for fact in facts {
        if Subject::of(fact).is_account() {
            places.push(place)?;
        }
        place += 1;
    }
    Ok(())
}

/// A copy of the realm that these facts put last.
fn put_realm(alloc: Global, facts: &[Fact]) -> Result<Option<Realm>, Memory>
    ensures { IfOk result (λ realm. realm ≡ last_of realm_put facts.now) }
{
    match last_held_in(facts, &RealmPut) {
        Some(realm) => Ok(Some(realm.duplicate(alloc)?)),
        None => Ok(None),
    }
}

/// Takes the newer realm in the place of the one before, where there is one.
fn renew(realm: &mut Option<Realm>, newer: &mut Option<Realm>)
    ensures realm { realm.new ≡ option_or newer.old realm.old }
    ensures newer { newer.new ≡ None }
{
    if newer.is_some() {
        *realm = newer.take();
    }
}

/// Moves items to the end of those for which room was made. It takes no memory.
fn join<T>(items: &mut Vec<T>, more: &mut Vec<T>)
    requires room { vec_len items.old + vec_len more.old ≤ vec_capacity items.old }
    ensures items { items.new.items ≡ items.old.items ++ more.old.items }
    ensures more { more.new.items ≡ [] }
    ensures len { vec_len items.new + vec_len more.new ≤ vec_capacity items.new }
{
    let Ok(()) = items.append(more) else {
        unreachable!()
    };
}

impl Waiting {
    fn empty(alloc: Global) -> Waiting
        ensures facts { result.facts.items ≡ [] }
        ensures notes { result.notes.items ≡ [] }
        ensures accounts { result.accounts.items ≡ [] }
        ensures realm { result.realm ≡ None }
        ensures fact_count { vec_len result.facts ≡ 0 }
        ensures note_count { vec_len result.notes ≡ 0 }
        ensures account_count { vec_len result.accounts ≡ 0 }
    {
        Waiting {
            facts: Vec::new(alloc),
            notes: Vec::new(alloc),
            accounts: Vec::new(alloc),
            realm: None,
        }
    }

    /// Lets go of what waits, and keeps its memory.
    fn clear(&mut self)
        ensures facts { self.new.facts.items ≡ [] }
        ensures notes { self.new.notes.items ≡ [] }
        ensures accounts { self.new.accounts.items ≡ [] }
        ensures realm { self.new.realm ≡ None }
        ensures fact_count { vec_len self.new.facts ≡ 0 }
        ensures note_count { vec_len self.new.notes ≡ 0 }
        ensures account_count { vec_len self.new.accounts ≡ 0 }
    {
        self.facts.clear();
        self.notes.clear();
        self.accounts.clear();
        self.realm = None;
    }

    /// Puts copies of the facts here where none wait, and what is to be kept beside them. So many
    /// facts stand before them, which name roots and tabs up to this serial.
    fn fill(
        &mut self,
        alloc: Global,
        known: u64,
        before: usize,
        facts: &[Fact],
    ) -> Result<(), Memory>
        requires facts { self.old.facts.items ≡ [] }
        requires notes { self.old.notes.items ≡ [] }
        requires accounts { self.old.accounts.items ≡ [] }
        requires note_count { vec_len self.old.notes ≡ 0 }
        requires account_count { vec_len self.old.accounts ≡ 0 }
        requires room { before + length facts.now < 2 ^ 64 }
        ensures facts { OnOk result (self.new.facts.items ≡ facts.now) }
        ensures notes { OnOk result (self.new.notes.items ≡ notes_of known facts.now) }
        ensures accounts { OnOk result (self.new.accounts.items ≡ account_places before facts.now) }
        ensures realm { OnOk result (self.new.realm ≡ last_of realm_put facts.now) }
        ensures fact_count { OnOk result (vec_len self.new.facts ≡ length facts.now) }
        ensures note_count { OnOk result (vec_len self.new.notes ≡ length facts.now) }
        ensures account_count { OnOk result (vec_len self.new.accounts ≤ length facts.now) }
    {
        copy_into(alloc, &mut self.facts, facts)?;
        note(&mut self.notes, known, facts)?;
        place_accounts(&mut self.accounts, before, facts)?;
        self.realm = put_realm(alloc, facts)?;
        Ok(())
    }
}

impl Chronicle {
    /// An empty list, which takes no memory.
    #[tactic(auto, unfolding(crate::specs::Serials::last_tab_serial, crate::specs::Serials::last_stored_serial, crate::specs::Serials::last_known_serial, crate::specs::Realms::last_version, crate::specs::Realms::current_realm, crate::specs::Kept::notes_of, crate::specs::Kept::account_places))]
    pub fn make(alloc: Global) -> Chronicle
        ensures list { result.list ≡ [] }
        ensures waiting { result.waiting ≡ [] }
    {
        Chronicle {
            alloc,
            list: Vec::new(alloc),
            notes: Vec::new(alloc),
            accounts: Vec::new(alloc),
            tab_serial: 0,
            stored_serial: 0,
            known_serial: 0,
            version: 0,
            realm: None,
            waiting: Waiting::empty(alloc),
        }
    }

    /// The number of facts in the list, without those that wait.
    pub fn len(&self) -> usize
        ensures value { result ≡ length self.now.list }
    {
        self.list.len()
    }

    /// The fact at a place, from 0. It is the only reader of a fact, and counts one step.
    pub fn at<L: Ledger>(&self, index: usize, steps: &mut Steps<L>) -> &Fact
        requires within { index < length self.now.list }
        ensures fact { slice_get self.now.list index ≡ Some result.now }
        ensures steps { steps.new ≡ steps.old + 1 }
    {
        steps.tick();
        &self.list[index]
    }

    /// Of what the fact at a place can say something. It isn't read for that.
    #[tactic(auto, using(crate::proofs::NoteLemmas::subject_at, crate::proofs::NoteLemmas::within_notes))]
    pub fn subject(&self, index: usize) -> Subject
        requires within { index < length self.now.list }
        ensures value { option_map subject_of (slice_get self.now.list index) ≡ Some result }
    {
        self.notes[index].subject
    }

    /// The greatest serial of a root or a tab that the facts up to the one at a place name.
    #[tactic(auto, using(crate::proofs::NoteLemmas::known_at, crate::proofs::NoteLemmas::within_notes))]
    fn known_at(&self, index: usize) -> u64
        requires within { index < length self.now.list }
        ensures value { result ≡ last_known_serial (take (index + 1) self.now.list) }
    {
        self.notes[index].known
    }

    /// A place before which no fact names a root or a tab of this serial or a greater one. No fact is
    /// read for it.
    pub fn first_known(&self, serial: u64) -> usize
        ensures within { result ≤ length self.now.list }
        ensures before { 0 < result → last_known_serial (take result self.now.list) < serial }
    {
        let mut low = 0;
        let mut high = self.len();
        while low < high {
            let middle = low + (high - low) / 2;
            if self.known_at(middle) < serial {
                low = middle + 1;
            } else {
                high = middle;
            }
        }
        low
    }

    /// The last used serial of the counter of roots, tabs and codes.
    pub fn last_tab_serial(&self) -> u64
        ensures value { result ≡ last_tab_serial self.now.list }
    {
        self.tab_serial
    }

    /// The last used serial of the counter of users, secrets, sessions and tokens.
    pub fn last_stored_serial(&self) -> u64
        ensures value { result ≡ last_stored_serial self.now.list }
    {
        self.stored_serial
    }

    /// The version of the last realm that was put, 0 where there is none.
    pub fn last_version(&self) -> u64
        ensures value { result ≡ last_version self.now.list }
    {
        self.version
    }

    /// The realm in force: the last one that was put.
    pub fn current_realm(&self) -> Option<&Realm>
        ensures value { option_copied result ≡ current_realm self.now.list }
    {
        self.realm.as_ref()
    }

    /// How many facts are about accounts.
    #[tactic(auto, using(crate::proofs::AccountPlaces::count))]
    pub fn account_count(&self) -> usize
        ensures value { result ≡ length (account_facts self.now.list) }
    {
        self.accounts.len()
    }

    /// The place of a fact about an account, by its number among those, from 0. The fact isn't read
    /// for that.
    #[tactic(auto, using(crate::proofs::AccountPlaces::count, crate::proofs::AccountPlaces::place_within, crate::proofs::AccountPlaces::fact_at))]
    pub fn account_place(&self, number: usize) -> usize
        requires within { number < length (account_facts self.now.list) }
        ensures within { result < length self.now.list }
        ensures fact { slice_get self.now.list result ≡ slice_get (account_facts self.now.list) number }
    {
        self.accounts[number]
    }

    /// Copies the facts to those that wait, in the place of what waited, and makes room for them.
    #[tactic(auto, using(crate::proofs::NoteLemmas::no_notes, crate::proofs::NoteLemmas::noted_behind, crate::proofs::AccountPlaces::none))]
    pub fn reserve(&mut self, facts: &[Fact]) -> Result<(), Memory>
        ensures list { self.new.list ≡ self.old.list }
        ensures ok { OnOk result (self.new.waiting ≡ facts.now) }
        ensures err { OnErr result (self.new.waiting ≡ []) }
    {
        self.waiting.clear();
        self.list.reserve(facts.len())?;
        self.notes.reserve(facts.len())?;
        self.accounts.reserve(facts.len())?;
        let filled = self
            .waiting
            .fill(self.alloc, self.known_serial, self.list.len(), facts);
        if filled.is_err() {
            self.waiting.clear();
        }
        filled
    }

    /// Moves the facts that wait to the end of the list. It takes no memory.
    #[tactic(auto, using(crate::proofs::SerialLemmas::last_tab_serial_more, crate::proofs::SerialLemmas::last_stored_serial_more, crate::proofs::SerialLemmas::last_known_serial_more, crate::proofs::InForce::last_version_more, crate::proofs::InForce::current_realm_more, crate::proofs::NoteLemmas::notes_joined, crate::proofs::NoteLemmas::no_notes, crate::proofs::AccountPlaces::joined, crate::proofs::AccountPlaces::none))]
    pub fn add(&mut self)
        ensures list { self.new.list ≡ self.old.list ++ self.old.waiting }
        ensures waiting { self.new.waiting ≡ [] }
    {
        let facts = self.waiting.facts.as_slice();
        self.tab_serial = fold_in(facts, &TabSerial, self.tab_serial);
        self.stored_serial = fold_in(facts, &StoredSerial, self.stored_serial);
        self.known_serial = fold_in(facts, &KnownSerial, self.known_serial);
        self.version = fold_in(facts, &Version, self.version);
        renew(&mut self.realm, &mut self.waiting.realm);
        join(&mut self.notes, &mut self.waiting.notes);
        join(&mut self.accounts, &mut self.waiting.accounts);
        join(&mut self.list, &mut self.waiting.facts);
    }
}
