ghost use Rattle.std.specs.Prelude.{◌≡◌, ◌⊎◌, IfOk, OnOk, Err};
ghost use Rattle.sqlite.specs.Held.{state};
ghost use Rattle.sqlite.specs.State.{HasCleanDisk, IsUnchanged, Survives};
ghost use Rattle.sql_base.specs.Told.{tables_in};
ghost use Rattle.sql_base.specs.declared.fault.Fault.TheVariants as faults;
ghost use Rattle.sql_base.specs.Schema.{schema};
ghost use Rattle.sql_base.specs.Steps.{IsBegun, IsRefused};
ghost use Rattle.sql_loads.specs.Loads.{AreTokens, TokensFit};

use crate::reading::{Shown, check_rowids, number_at, read_rising, text_at};
use keeper_rows::TokenRow;
use login_base::Sequence;
use sql_base::Fault;
use sql_sessions::select_tokens;
use sqlite::{Alter, Row, Transaction};
use std::alloc::Global;

impl Shown for TokenRow {
    ghost use Rattle.sql_sessions.specs.Values.{token_in};
    ghost use Rattle.sql_loads.specs.Fits.{TokenFits};

    ghost told_by = { token_in };

    ghost fits = { TokenFits };

    fn read(alloc: Global, row: &Row) -> Result<TokenRow, Fault> {
        Ok(TokenRow {
            key: text_at(alloc, row, 0)?,
            user: number_at(row, 1)?,
            kind: text_at(alloc, row, 2)?,
            expiry: number_at(row, 3)?,
            spent: number_at(row, 4)?,
        })
    }
}

/// The tokens in the order of their keys.
pub fn load_tokens<S: Alter>(
    alloc: Global,
    tx: &mut Transaction<'_, S>,
) -> Result<Sequence<TokenRow>, Fault>
    requires begun { HasCleanDisk (state S.Store tx.old.conn.now) → IsBegun schema (state S.Store tx.old.conn.now) }
    ensures same_reference { tx.new.conn.ghost_name ≡ tx.old.conn.ghost_name }
    ensures told { HasCleanDisk (state S.Store tx.new.conn.now) → IfOk result (λ tokens.
        tokens ≡ (tables_in (state S.Store tx.old.conn.now).now.trees).tokens) }
    ensures kept { HasCleanDisk (state S.Store tx.new.conn.now) → OnOk result
        (AreTokens ((state S.Store tx.old.conn.now).now.trees 7)) }
    ensures same { HasCleanDisk (state S.Store tx.new.conn.now) → OnOk result
        (IsUnchanged (state S.Store tx.old.conn.now) (state S.Store tx.new.conn.now)) }
    ensures cause { HasCleanDisk (state S.Store tx.new.conn.now) → result ≡ Err faults.Failed
        → IsRefused (state S.Store tx.old.conn.now) (state S.Store tx.new.conn.now)
        ⊎ ¬ TokensFit ((state S.Store tx.old.conn.now).now.trees 7) }
    ensures survives { Survives (state S.Store tx.old.conn.now) (state S.Store tx.new.conn.now) (λ _. ⊥) }
{
    let rows = select_tokens(tx)?;
    let tokens = read_rising(alloc, rows.as_slice())?;
    check_rowids(alloc, rows.as_slice(), 5)?;
    Ok(tokens)
}
