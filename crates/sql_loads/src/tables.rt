ghost use Rattle.std.specs.Prelude.{◌≡◌, ◌⊎◌, Err, IfOk, None, OnOk};
ghost use Rattle.sqlite.specs.Held.{state};
ghost use Rattle.sqlite.specs.State.{HasCleanDisk, IsUnchanged, Survives};
ghost use Rattle.sql_base.specs.Ready.{AreKept};
ghost use Rattle.sql_base.specs.declared.fault.Fault.TheVariants as faults;
ghost use Rattle.sql_base.specs.Schema.{schema};
ghost use Rattle.sql_base.specs.Steps.{IsBegun, IsRefused};
ghost use Rattle.sql_base.specs.Told.{tables_in};
ghost use Rattle.sql_loads.specs.Loads.{by_rowid, first_failing, has_mark_key, tells_realm};
ghost use Rattle.sql_loads.specs.Tables.{AreUsers, AreUses, TablesFit, UsersFit, UsesFit, tables_stored};

use crate::accounts::load_accounts;
use crate::marks::{Marks, load_marks};
use crate::realms::{Realms, load_realms};
use crate::secrets::load_secrets;
use crate::sessions::load_sessions;
use crate::tokens::load_tokens;
use keeper_rows::{AccountRow, SecretRow, SessionRow, Tables, TokenRow};
use login_base::Sequence;
use sql_base::Fault;
use sqlite::{Alter, Transaction};
use std::alloc::Global;

/// The tables of a database, and which of their rows are none of ours.
#[derive(Debug, Drop)]
pub struct Loaded {
    pub tables: Tables,
    /// The number, from 1, of the first row that tells no realm, as in [`Realms`].
    pub untold_realm: Option<u64>,
    /// The number, from 1, of the first mark row whose key isn't 1.
    pub unkeyed_mark: Option<u64>,
}

/// Who may log in, and how.
#[derive(Drop)]
struct Users {
    realms: Realms,
    accounts: Sequence<AccountRow>,
    secrets: Sequence<SecretRow>,
}

/// What came of logins.
#[derive(Drop)]
struct Uses {
    sessions: Sequence<SessionRow>,
    tokens: Sequence<TokenRow>,
    marks: Marks,
}

fn load_users<S: Alter>(alloc: Global, tx: &mut Transaction<'_, S>) -> Result<Users, Fault>
    requires begun { HasCleanDisk (state S.Store tx.old.conn.now) → IsBegun schema (state S.Store tx.old.conn.now) }
    ensures same_reference { tx.new.conn.ghost_name ≡ tx.old.conn.ghost_name }
    ensures told { HasCleanDisk (state S.Store tx.new.conn.now) → IfOk result
        (AreUsers (state S.Store tx.old.conn.now).now.trees) }
    ensures same { HasCleanDisk (state S.Store tx.new.conn.now) → OnOk result
        (IsUnchanged (state S.Store tx.old.conn.now) (state S.Store tx.new.conn.now)) }
    ensures cause { HasCleanDisk (state S.Store tx.new.conn.now) → result ≡ Err faults.Failed
        → IsRefused (state S.Store tx.old.conn.now) (state S.Store tx.new.conn.now)
        ⊎ ¬ UsersFit (state S.Store tx.old.conn.now).now.trees }
    ensures survives { Survives (state S.Store tx.old.conn.now) (state S.Store tx.new.conn.now) (λ _. ⊥) }
{
    let realms = load_realms(alloc, tx)?;
    let accounts = load_accounts(alloc, tx)?;
    let secrets = load_secrets(alloc, tx)?;
    Ok(Users {
        realms,
        accounts,
        secrets,
    })
}

fn load_uses<S: Alter>(alloc: Global, tx: &mut Transaction<'_, S>) -> Result<Uses, Fault>
    requires begun { HasCleanDisk (state S.Store tx.old.conn.now) → IsBegun schema (state S.Store tx.old.conn.now) }
    ensures same_reference { tx.new.conn.ghost_name ≡ tx.old.conn.ghost_name }
    ensures told { HasCleanDisk (state S.Store tx.new.conn.now) → IfOk result
        (AreUses (state S.Store tx.old.conn.now).now.trees) }
    ensures same { HasCleanDisk (state S.Store tx.new.conn.now) → OnOk result
        (IsUnchanged (state S.Store tx.old.conn.now) (state S.Store tx.new.conn.now)) }
    ensures cause { HasCleanDisk (state S.Store tx.new.conn.now) → result ≡ Err faults.Failed
        → IsRefused (state S.Store tx.old.conn.now) (state S.Store tx.new.conn.now)
        ⊎ ¬ UsesFit (state S.Store tx.old.conn.now).now.trees }
    ensures survives { Survives (state S.Store tx.old.conn.now) (state S.Store tx.new.conn.now) (λ _. ⊥) }
{
    let sessions = load_sessions(alloc, tx)?;
    let tokens = load_tokens(alloc, tx)?;
    let marks = load_marks(alloc, tx)?;
    Ok(Uses {
        sessions,
        tokens,
        marks,
    })
}

fn all_of(users: Users, uses: Uses) -> Loaded
    ensures realms { result.tables.realms ≡ users.realms.rows }
    ensures accounts { result.tables.accounts ≡ users.accounts }
    ensures secrets { result.tables.secrets ≡ users.secrets }
    ensures sessions { result.tables.sessions ≡ uses.sessions }
    ensures tokens { result.tables.tokens ≡ uses.tokens }
    ensures marks { result.tables.marks ≡ uses.marks.rows }
    ensures untold { result.untold_realm ≡ users.realms.untold }
    ensures unkeyed { result.unkeyed_mark ≡ uses.marks.unkeyed }
{
    let Users {
        realms,
        accounts,
        secrets,
    } = users;
    let Uses {
        sessions,
        tokens,
        marks,
    } = uses;
    let Realms { rows, untold } = realms;
    let Marks {
        rows: mark_rows,
        unkeyed,
    } = marks;
    Loaded {
        tables: Tables {
            realms: rows,
            accounts,
            secrets,
            sessions,
            tokens,
            marks: mark_rows,
        },
        untold_realm: untold,
        unkeyed_mark: unkeyed,
    }
}

/// All tables, in the order of their keys.
pub fn load_tables<S: Alter>(alloc: Global, tx: &mut Transaction<'_, S>) -> Result<Loaded, Fault>
    requires begun { HasCleanDisk (state S.Store tx.old.conn.now) → IsBegun schema (state S.Store tx.old.conn.now) }
    ensures same_reference { tx.new.conn.ghost_name ≡ tx.old.conn.ghost_name }
    ensures rows { HasCleanDisk (state S.Store tx.new.conn.now) → IfOk result (λ loaded.
        loaded.tables ≡ tables_stored (state S.Store tx.old.conn.now).now.trees) }
    ensures untold { HasCleanDisk (state S.Store tx.new.conn.now) → IfOk result (λ loaded.
        loaded.untold_realm ≡ first_failing tells_realm (by_rowid ((state S.Store tx.old.conn.now).now.trees 0))) }
    ensures unkeyed { HasCleanDisk (state S.Store tx.new.conn.now) → IfOk result (λ loaded.
        loaded.unkeyed_mark ≡ first_failing has_mark_key (by_rowid ((state S.Store tx.old.conn.now).now.trees 9))) }
    ensures told { HasCleanDisk (state S.Store tx.new.conn.now) → IfOk result (λ loaded.
        AreKept (state S.Store tx.old.conn.now).now.trees
        → loaded.tables ≡ tables_in (state S.Store tx.old.conn.now).now.trees) }
    ensures kept { HasCleanDisk (state S.Store tx.new.conn.now) → IfOk result (λ loaded.
        loaded.untold_realm ≡ None → loaded.unkeyed_mark ≡ None
        → AreKept (state S.Store tx.old.conn.now).now.trees) }
    ensures same { HasCleanDisk (state S.Store tx.new.conn.now) → OnOk result
        (IsUnchanged (state S.Store tx.old.conn.now) (state S.Store tx.new.conn.now)) }
    ensures cause { HasCleanDisk (state S.Store tx.new.conn.now) → result ≡ Err faults.Failed
        → IsRefused (state S.Store tx.old.conn.now) (state S.Store tx.new.conn.now)
        ⊎ ¬ TablesFit (state S.Store tx.old.conn.now).now.trees }
    ensures survives { Survives (state S.Store tx.old.conn.now) (state S.Store tx.new.conn.now) (λ _. ⊥) }
{
    let users = load_users(alloc, tx)?;
    let uses = load_uses(alloc, tx)?;
    Ok(all_of(users, uses))
}
