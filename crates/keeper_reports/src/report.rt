ghost use Rattle.std.specs.Prelude.{◌≡◌, ◌++◌, IfOk, OnOk};
ghost use Rattle.std.specs.List.{flat_map};
ghost use Rattle.keeper_reports.specs.Reports.{is_off, on_or_off, user_line, name_of, session_line, spent_or_not, token_line, users_text, sessions_text, tokens_text, report_text};

use crate::columns::{add, add_last, add_left, add_next_left, add_next_number, shown};
use crate::names::{name_of, places_of};
use crate::order::{by_name, by_serial};
use keeper_rows::{AccountRow, SessionRow, Tables, TokenRow};
use login_base::Memory;
use std::alloc::Global;

/// What a report is about.
#[derive(Clone, Copy, Debug, PartialEq, Eq)]
pub enum Report {
    /// By their names.
    Users,
    /// By their serials.
    Sessions,
    /// By their serials.
    Tokens,
}

/// Whether the account is disabled or permanent.
fn is_off(account: &AccountRow) -> bool
    ensures { result ≡ is_off account.now }
{
    account.enabled == 0 || account.permanent == 1
}

fn on_or_off(account: &AccountRow) -> &'static [u8]
    ensures { result.now ≡ on_or_off account.now }
{
    if is_off(account) { b"off" } else { b"on" }
}

fn spent_or_not(token: &TokenRow) -> &'static [u8]
    ensures { result.now ≡ spent_or_not token.now }
{
    if token.spent == 1 {
        b"spent"
    } else {
        b"unspent"
    }
}

fn add_user(alloc: Global, out: &mut Vec<u8>, row: &AccountRow) -> Result<(), Memory>
    ensures { OnOk result (out.new.items ≡ out.old.items ++ user_line row.now) }
{
    add_left(out, 32, row.name.as_bytes())?;
    add_next_number(alloc, out, 8, &row.id)?;
    add_next_left(out, 3, on_or_off(row))?;
    add_next_number(alloc, out, 6, &row.count)?;
    add_last(out, shown(row.actions.as_bytes()))
}

fn add_session(
    alloc: Global,
    out: &mut Vec<u8>,
    name: &[u8],
    row: &SessionRow,
) -> Result<(), Memory>
    ensures { OnOk result (out.new.items ≡ out.old.items ++ session_line name.now row.now) }
{
    add(out, row.id.as_bytes())?;
    add_next_left(out, 32, shown(name))?;
    add_next_number(alloc, out, 16, &row.opened)?;
    add_next_number(alloc, out, 16, &row.seen)?;
    add_last(out, shown(row.levels.as_bytes()))
}

fn add_token(alloc: Global, out: &mut Vec<u8>, name: &[u8], row: &TokenRow) -> Result<(), Memory>
    ensures { OnOk result (out.new.items ≡ out.old.items ++ token_line name.now row.now) }
{
    add(out, row.key.as_bytes())?;
    add_next_left(out, 32, shown(name))?;
    add_next_left(out, 15, row.kind.as_bytes())?;
    add_next_number(alloc, out, 16, &row.expiry)?;
    add_last(out, spent_or_not(row))
}

fn add_users(alloc: Global, out: &mut Vec<u8>, rows: &[&AccountRow]) -> Result<(), Memory>
    ensures { OnOk result (out.new.items ≡ out.old.items ++ flat_map (λ row. user_line row.now) rows.now) }
{
    for row in rows {
        add_user(alloc, out, row)?;
    }
    Ok(())
}

fn users_text(alloc: Global, tables: &Tables) -> Result<Vec<u8>, Memory>
    ensures { IfOk result (λ text. text.items ≡ users_text tables.now) }
{
    let rows = by_name(alloc, tables.accounts.as_slice())?;
    let mut out = Vec::new(alloc);
    add_users(alloc, &mut out, rows.as_slice())?;
    Ok(out)
}

fn add_sessions(
    alloc: Global,
    out: &mut Vec<u8>,
    tables: &Tables,
    rows: &[&SessionRow],
) -> Result<(), Memory>
    ensures { OnOk result (out.new.items ≡
        out.old.items ++ flat_map (λ row. session_line (name_of tables.now.accounts row.now.user) row.now) rows.now) }
{
    let accounts = tables.accounts.as_slice();
    let places = places_of(alloc, accounts)?;
    for row in rows {
        add_session(alloc, out, name_of(&places, accounts, &row.user), row)?;
    }
    Ok(())
}

fn sessions_text(alloc: Global, tables: &Tables) -> Result<Vec<u8>, Memory>
    ensures { IfOk result (λ text. text.items ≡ sessions_text tables.now) }
{
    let rows = by_serial(alloc, tables.sessions.as_slice())?;
    let mut out = Vec::new(alloc);
    add_sessions(alloc, &mut out, tables, rows.as_slice())?;
    Ok(out)
}

fn add_tokens(
    alloc: Global,
    out: &mut Vec<u8>,
    tables: &Tables,
    rows: &[&TokenRow],
) -> Result<(), Memory>
    ensures { OnOk result (out.new.items ≡
        out.old.items ++ flat_map (λ row. token_line (name_of tables.now.accounts row.now.user) row.now) rows.now) }
{
    let accounts = tables.accounts.as_slice();
    let places = places_of(alloc, accounts)?;
    for row in rows {
        add_token(alloc, out, name_of(&places, accounts, &row.user), row)?;
    }
    Ok(())
}

fn tokens_text(alloc: Global, tables: &Tables) -> Result<Vec<u8>, Memory>
    ensures { IfOk result (λ text. text.items ≡ tokens_text tables.now) }
{
    let rows = by_serial(alloc, tables.tokens.as_slice())?;
    let mut out = Vec::new(alloc);
    add_tokens(alloc, &mut out, tables, rows.as_slice())?;
    Ok(out)
}

/// The report, a line for each row.
pub fn report_text(alloc: Global, tables: &Tables, report: Report) -> Result<Vec<u8>, Memory>
    ensures text { IfOk result (λ text. text.items ≡ report_text tables.now report) }
{
    match report {
        Report::Users => users_text(alloc, tables),
        Report::Sessions => sessions_text(alloc, tables),
        Report::Tokens => tokens_text(alloc, tables),
    }
}
