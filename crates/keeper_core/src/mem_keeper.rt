ghost use Rattle.std.specs.Prelude.{◌≡◌, ◌≤◌, ◌↔◌, not, Err, IsTrue, IfOk, OnOk, OnErr};
ghost use Rattle.login_base.specs.InMemory.{FailsNext, called, no_calls};
ghost use Rattle.login_base.specs.Outside.{Rose};
ghost use Rattle.keeper_rows.specs.Applied.{applied};
ghost use Rattle.keeper_core.specs.Keeping.{IsAnswer, KeepsRules, CallsGoOn, is_failed_load, is_failed_commit};
ghost use Rattle.keeper_core.specs.InMemory.{told_calls};

use crate::held::Held;
use crate::keeper::{CommitFault, Keeper, LoadFault};
use crate::loading::checked;
use keeper_rows::{Batch, Tables};
use login_base::{Calls, Duplicate};
use std::alloc::Global;
use std::marker::Model;

/// A keeper in memory.
#[derive(Drop)]
pub struct MemKeeper {
    alloc: Global,
    held: Held,
    calls: Calls,
}

impl Model for MemKeeper {
    ghost use Rattle.std.specs.Coded.{codes};
    ghost use Rattle.flow_tree.specs.contracts.exec.Exec as exec;
    ghost use Rattle.keeper_core.specs.Held.{tables_in};
    ghost use Rattle.keeper_core.specs.InMemory.{KeeperState};

    ghost Value = { KeeperState };

    ghost coded = { Prim.hlevel (codes, exec.the_row.coded) };

    ghost view = { λ k. record { tables = tables_in k.held; calls = k.calls } };
}

/// Counts a call, and a fault where the call is to fail.
fn fails(calls: &mut Calls) -> bool
    ensures state { calls.new ≡ called result calls.old }
    ensures faults { calls.old.faults ≤ calls.new.faults }
    ensures fails { IsTrue result → FailsNext calls.old }
    ensures goes_on { IsTrue (not result) → ¬ FailsNext calls.old }
    ensures told { CallsGoOn result (told_calls calls.old) (told_calls calls.new) }
{
    calls.fails()
}

impl MemKeeper {
    /// A keeper of these tables. The calls whose numbers stand in `failing` fail, loads and
    /// commits counted together from 1: each is a fault, and changes nothing else but the number
    /// of calls.
    pub fn make(alloc: Global, tables: Tables, failing: Vec<u64>) -> MemKeeper
        ensures state { result ≡ record { tables = tables; calls = no_calls failing.items } }
    {
        MemKeeper {
            alloc,
            held: Held::of(tables),
            calls: Calls::new(failing),
        }
    }
}

impl Keeper for MemKeeper {
    ghost use Rattle.std.specs.Prelude.{Some};

    ghost tables = { λ k. Some k.tables };

    ghost calls = { λ k. told_calls k.calls };

    ghost faults = { λ k. k.calls.faults };

    fn load(&mut self) -> Result<Tables, LoadFault>
        ensures answer { IsAnswer self.new.tables result }
        ensures sound { IfOk result KeepsRules }
        ensures same { self.new.tables ≡ self.old.tables }
        ensures calls { CallsGoOn (is_failed_load result) (told_calls self.old.calls) (told_calls self.new.calls) }
        ensures faults { self.old.calls.faults ≤ self.new.calls.faults }
        ensures cause { result ≡ Err LoadFault.Failed → Rose self.old.calls.faults self.new.calls.faults }
        ensures fails { (result ≡ Err LoadFault.Failed) ↔ FailsNext self.old.calls }
        ensures counted { self.new.calls ≡ called (is_failed_load result) self.old.calls }
    {
        if fails(&mut self.calls) {
            return Err(LoadFault::Failed);
        }
        let tables = self.held.copy(self.alloc)?;
        checked(self.alloc, tables)
    }

    fn commit(&mut self, batch: &Batch) -> Result<(), CommitFault>
        ensures ok { OnOk result (self.new.tables ≡ applied batch.now.changes self.old.tables) }
        ensures err { OnErr result (self.new.tables ≡ self.old.tables) }
        ensures calls { CallsGoOn (is_failed_commit result) (told_calls self.old.calls) (told_calls self.new.calls) }
        ensures faults { self.old.calls.faults ≤ self.new.calls.faults }
        ensures cause { result ≡ Err CommitFault.Failed → Rose self.old.calls.faults self.new.calls.faults }
        ensures fails { (result ≡ Err CommitFault.Failed) ↔ FailsNext self.old.calls }
        ensures counted { self.new.calls ≡ called (is_failed_commit result) self.old.calls }
    {
        if fails(&mut self.calls) {
            return Err(CommitFault::Failed);
        }
        let changes = batch.changes.duplicate(self.alloc)?;
        self.held.reserve(changes.len())?;
        self.held.apply(changes);
        Ok(())
    }
}
