ghost use Rattle.std.specs.Prelude.{◌≡◌, Err, IfOk, IfErr, IfSome, OnOk, OnErr};
ghost use Rattle.keeper_core.specs.Keeping.{Stays, Commits, Keeps};
ghost use Rattle.keeper_rows.specs.Applied.{applied, no_rows};
ghost use Rattle.sqlite.specs.Held.{state};
ghost use Rattle.sql_base.specs.Told.{tables_in};
ghost use Rattle.keeper_sql.specs.Kept.{KnowsOurs, Endures, told, load_fault, commit_fault};
ghost use Rattle.keeper_sql.specs.Unread.{is_whole};

use crate::commit::commit_all;
use crate::loading::{answer, is_whole, read_tables};
use crate::opening::ready;
use keeper_core::{CommitFault, Keeper, LoadFault};
use keeper_rows::{Batch, Change, Tables};
use sql_base::Fault;
use sql_loads::Loaded;
use sqlite::{Alter, Connection, Error};
use std::alloc::Global;
use std::marker::Model;

/// A keeper of tables in an SQLite database.
#[derive(Drop)]
pub struct SqlKeeper<S: Alter + Drop> {
    alloc: Global,
    opened: Result<Connection<S>, Fault>,
    known: bool,
    faults: u64,
}

impl<S: Alter + Drop> Model for SqlKeeper<S> {
    ghost use Rattle.keeper_sql.specs.Kept.{Kept, kept_code, KnowsOurs};

    ghost Value = { Kept S };

    ghost coded = { kept_code S.code };

    ghost view = { λ k. record { opened = k.opened; known = k.known; faults = k.faults } };

    ghost invariant = { λ k. KnowsOurs S.Store k.known k.opened };
}

/// Makes changes where the tables are known.
fn commit_known<S: Alter>(
    alloc: Global,
    opened: &mut Result<Connection<S>, Fault>,
    known: bool,
    changes: &[Change],
) -> Result<(), Fault>
    requires ours { KnowsOurs S.Store known opened.old }
    ensures ours { KnowsOurs S.Store known opened.new }
    ensures ok { OnOk result (Commits (told S.Store known opened.old) (told S.Store known opened.new) changes.now) }
    ensures err { OnErr result (Keeps (told S.Store known opened.old) (told S.Store known opened.new)) }
    ensures endures { Endures S.Store (λ before trees. tables_in trees
        ≡ applied changes.now (tables_in (state S.Store before).now.trees)) opened.old opened.new }
    ensures unopened { IfErr opened.old (λ fault. result ≡ Err fault) }
{
    match opened {
        Ok(conn) if known => commit_all(alloc, conn, changes),
        Ok(_) => Err(Fault::Failed),
        Err(fault) => Err(*fault),
    }
}

/// Reads the tables, which are ours where that can be known.
fn load_known<S: Alter>(
    alloc: Global,
    opened: &mut Result<Connection<S>, Fault>,
    known: bool,
) -> Result<Loaded, Fault>
    requires ours { KnowsOurs S.Store known opened.old }
    ensures ours { IfOk result (λ loaded. KnowsOurs S.Store
        (is_whole loaded.untold_realm loaded.unkeyed_mark) opened.new) }
    ensures told { IfOk result (λ loaded. IfSome
        (told S.Store (is_whole loaded.untold_realm loaded.unkeyed_mark) opened.new) (λ now. now ≡ loaded.tables)) }
    ensures stays { IfOk result (λ loaded. Stays (told S.Store known opened.old)
        (told S.Store (is_whole loaded.untold_realm loaded.unkeyed_mark) opened.new)) }
    ensures endures { Endures S.Store (λ _ trees. tables_in trees ≡ no_rows) opened.old opened.new }
    ensures unopened { IfErr opened.old (λ fault. result ≡ Err fault) }
{
    match opened {
        Ok(conn) => {
            ready(alloc, conn, known)?;
            read_tables(alloc, conn)
        }
        Err(fault) => Err(*fault),
    }
}

/// What a load answers that met this fault.
fn not_loaded(fault: Fault) -> LoadFault
    ensures value { result ≡ load_fault fault }
{
    match fault {
        Fault::Failed => LoadFault::Failed,
        Fault::Memory => LoadFault::Memory,
    }
}

/// What a commit answers that met this fault.
fn refused(fault: Fault) -> CommitFault
    ensures value { result ≡ commit_fault fault }
{
    match fault {
        Fault::Failed => CommitFault::Failed,
        Fault::Memory => CommitFault::Memory,
    }
}

impl<S: Alter + Drop> SqlKeeper<S> {
    ghost use Rattle.std.specs.Prelude.{◌≡◌, false};
    ghost use Rattle.keeper_sql.specs.Kept.{opened_as, faults_after};

    /// A keeper over what opening a database answered. It tells no tables before its first load.
    pub fn over(alloc: Global, opened: Result<Connection<S>, Error>) -> SqlKeeper<S>
        ensures state { result ≡ record { opened = opened_as opened; known = false; faults = 0 } }
    {
        let opened = match opened {
            Ok(conn) => Ok(conn),
            Err(error) => Err(Fault::from(error)),
        };
        SqlKeeper {
            alloc,
            opened,
            known: false,
            faults: 0,
        }
    }

    /// Counts a fault that isn't want of memory.
    fn count(&mut self, fault: Fault)
        ensures state { self.new ≡ record self.old { faults = faults_after fault self.old.faults } }
    {
        match fault {
            Fault::Failed => self.faults = self.faults.saturating_add(1),
            Fault::Memory => {}
        }
    }
}

impl<S: Alter + Drop> Keeper for SqlKeeper<S> {
    ghost use Rattle.std.specs.Prelude.{◌≡◌, ◌≤◌, None, true, Err, IfOk, IfErr, OnOk, OnErr};
    ghost use Rattle.login_base.specs.Outside.{Rose};
    ghost use Rattle.keeper_core.specs.Keeping.{Answers, KeepsRules, Stays, Commits, Keeps};
    ghost use Rattle.keeper_rows.specs.Applied.{applied, no_rows};
    ghost use Rattle.sqlite.specs.Held.{state};
    ghost use Rattle.sql_base.specs.Told.{tables_in};
    ghost use Rattle.keeper_sql.specs.Kept.{Endures, told, load_fault, commit_fault};

    ghost tables = { λ k. told S.Store k.known k.opened };

    ghost calls = { λ _. None };

    ghost faults = { λ k. k.faults };

    fn load(&mut self) -> Result<Tables, LoadFault>
        ensures answer { Answers (told S.Store self.new.known self.new.opened) result }
        ensures sound { IfOk result KeepsRules }
        ensures same { Stays (told S.Store self.old.known self.old.opened)
            (told S.Store self.new.known self.new.opened) }
        ensures faults { self.old.faults ≤ self.new.faults }
        ensures cause { result ≡ Err LoadFault.Failed → Rose self.old.faults self.new.faults }
        ensures unopened { IfErr self.old.opened (λ fault. result ≡ Err (load_fault fault)) }
        ensures known { IfOk result (λ _. self.new.known ≡ true) }
        ensures endures { Endures S.Store (λ _ trees. tables_in trees ≡ no_rows) self.old.opened self.new.opened }
    {
        match load_known(self.alloc, &mut self.opened, self.known) {
            Ok(loaded) => {
                self.known = is_whole(&loaded);
                answer(self.alloc, loaded)
            }
            Err(fault) => {
                self.known = false;
                self.count(fault);
                Err(not_loaded(fault))
            }
        }
    }

    fn commit(&mut self, batch: &Batch) -> Result<(), CommitFault>
        ensures ok { OnOk result (Commits (told S.Store self.old.known self.old.opened)
            (told S.Store self.new.known self.new.opened) batch.now.changes) }
        ensures err { OnErr result (Keeps (told S.Store self.old.known self.old.opened)
            (told S.Store self.new.known self.new.opened)) }
        ensures faults { self.old.faults ≤ self.new.faults }
        ensures cause { result ≡ Err CommitFault.Failed → Rose self.old.faults self.new.faults }
        ensures unopened { IfErr self.old.opened (λ fault. result ≡ Err (commit_fault fault)) }
        ensures known { self.new.known ≡ self.old.known }
        ensures endures { Endures S.Store (λ before trees. tables_in trees
            ≡ applied batch.now.changes (tables_in (state S.Store before).now.trees))
            self.old.opened self.new.opened }
    {
        match commit_known(
            self.alloc,
            &mut self.opened,
            self.known,
            batch.changes.as_slice(),
        ) {
            Ok(()) => Ok(()),
            Err(fault) => {
                self.count(fault);
                Err(refused(fault))
            }
        }
    }
}
