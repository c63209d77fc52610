ghost use Rattle.std.specs.Prelude.{◌≡◌, ◌≤◌, ℕ, Option, Err, IfOk, OnOk, OnErr};
ghost use Rattle.keeper_rows.specs.declared.tables.Tables.{Tables};
ghost use Rattle.login_base.specs.Outside.{Rose};
ghost use Rattle.keeper_core.specs.Keeping.{CallsMade, Answers, KeepsRules, Stays, Keeps, Commits, CallsGoOn, is_failed_load, is_failed_commit};

use keeper_rows::{Batch, Tables};
use login_base::Memory;

/// Why no tables were loaded.
#[derive(Clone, Copy, Debug, PartialEq, Eq)]
pub enum LoadFault {
    /// The keeper failed.
    Failed,
    /// There is one mark row, and its schema number isn't 1.
    Foreign { version: i64 },
    /// The first rule that the tables break, from 1 to 7, and the number of the first row that
    /// breaks it, from 1 in the order of its table's keys.
    Misfit { rule: u32, row: u64 },
    /// Want of memory.
    Memory,
}

/// Why a commit changed nothing.
#[derive(Clone, Copy, Debug, PartialEq, Eq)]
pub enum CommitFault {
    /// The keeper failed.
    Failed,
    /// Want of memory.
    Memory,
}

impl From<Memory> for LoadFault {
    ghost use Rattle.keeper_core.specs.declared.keeper.LoadFault.TheVariants as faults;

    ghost from_gives = { λ _ fault. fault ≡ faults.Memory };

    fn from(_memory: Memory) -> LoadFault {
        LoadFault::Memory
    }
}

impl From<Memory> for CommitFault {
    ghost use Rattle.keeper_core.specs.declared.keeper.CommitFault.TheVariants as faults;

    ghost from_gives = { λ _ fault. fault ≡ faults.Memory };

    fn from(_memory: Memory) -> CommitFault {
        CommitFault::Memory
    }
}

/// Who keeps tables from one run to the next.
pub trait Keeper {
    /// The tables that are kept, where they are told.
    ghost tables: { Self → Option Tables };

    /// How many loads and commits were made, and which of them failed, where it is told.
    ghost calls: { Self → Option CallsMade };

    /// The count of faults, which never falls.
    ghost faults: { Self → ℕ };

    /// The tables that are kept, where they have a known schema and break no rule.
    fn load(&mut self) -> Result<Tables, LoadFault>
        ensures answer { Answers (tables self.new) result }
        ensures sound { IfOk result KeepsRules }
        ensures same { Stays (tables self.old) (tables self.new) }
        ensures calls { CallsGoOn (is_failed_load result) (calls self.old) (calls self.new) }
        ensures faults { faults self.old ≤ faults self.new }
        ensures cause { result ≡ Err LoadFault.Failed → Rose (faults self.old) (faults self.new) };

    /// Makes all changes of a batch, in order, or none.
    fn commit(&mut self, batch: &Batch) -> Result<(), CommitFault>
        ensures ok { OnOk result (Commits (tables self.old) (tables self.new) batch.now.changes) }
        ensures err { OnErr result (Keeps (tables self.old) (tables self.new)) }
        ensures calls { CallsGoOn (is_failed_commit result) (calls self.old) (calls self.new) }
        ensures faults { faults self.old ≤ faults self.new }
        ensures cause { result ≡ Err CommitFault.Failed → Rose (faults self.old) (faults self.new) };
}
