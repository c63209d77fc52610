ghost use Rattle.std.specs.Prelude.{◌≡◌, map, IfOk};
ghost use Rattle.facts.specs.Levels.{levels_of};
ghost use Rattle.fact_columns.specs.Words.{levels_text};
ghost use Rattle.fact_rows.specs.Rows.{reached, session_with, session_row};

use crate::found::session_kept;
use fact_columns::{column, id_column, levels_text};
use facts::{Facts, RootSession};
use keeper_columns::ReachedLevel;
use keeper_rows::{SessionRow, Text};
use login_base::{Memory, Moment, SessionId, Steps};
use root_states::levels_of;
use std::alloc::Global;
use std::sync::ledger::Ledger;

/// A level with its moment.
fn reached(level: &(u32, u64)) -> ReachedLevel
    ensures { result ≡ reached level.now }
{
    ReachedLevel {
        level: level.0,
        moment: Moment::clamped(level.1),
    }
}

fn reached_levels(alloc: Global, levels: &[(u32, u64)]) -> Result<Vec<ReachedLevel>, Memory>
    ensures { IfOk result (λ all. all.items ≡ map reached levels.now) }
{
    let mut all = Vec::new(alloc);
    for level in levels {
        all.push(reached(level))?;
    }
    Ok(all)
}

/// The levels that the session has reached.
fn levels_column<L: Ledger>(
    alloc: Global,
    facts: &Facts<'_>,
    id: SessionId,
    steps: &mut Steps<L>,
) -> Result<Text, Memory>
    ensures { IfOk result (λ text. text ≡ levels_text (map reached (levels_of id facts.now))) }
{
    let levels = levels_of(alloc, facts, id, steps)?;
    levels_text(alloc, reached_levels(alloc, levels.as_slice())?.as_slice())
}

fn session_with<L: Ledger>(
    alloc: Global,
    facts: &Facts<'_>,
    id: SessionId,
    own: &RootSession,
    steps: &mut Steps<L>,
) -> Result<SessionRow, Memory>
    ensures { IfOk result (λ row. row ≡ session_with id facts.now own.now) }
{
    Ok(SessionRow {
        id: id_column(alloc, &id.0)?,
        user: column(own.user.0),
        opened: own.opened.millis() as i64,
        seen: own.seen.millis() as i64,
        idle: column(own.idle),
        max: column(own.max),
        levels: levels_column(alloc, facts, id, steps)?,
    })
}

/// A session that hasn't ended.
#[tactic(auto, unfolding(crate::specs::Rows::session_row))]
pub fn session_row<L: Ledger>(
    alloc: Global,
    facts: &Facts<'_>,
    id: SessionId,
    steps: &mut Steps<L>,
) -> Result<Option<SessionRow>, Memory>
    ensures ok { IfOk result (λ row. row ≡ session_row id facts.now) }
{
    match session_kept(facts, id, steps) {
        Some(own) => Ok(Some(session_with(alloc, facts, id, &own, steps)?)),
        None => Ok(None),
    }
}
