ghost use Rattle.std.specs.Prelude.{◌≡◌, ◌<◌, ◌++◌, length, option_map, slice_get, IfOk, OnOk, Some};
ghost use Rattle.std.specs.List.{flat_map};
ghost use Rattle.facts.specs.Levels.{level_recorded, levels_of};

use facts::{Chronicle, Fact, Facts};
use login_base::{Memory, Sequence, SessionId, Steps, same_id};
use std::alloc::Global;
use std::sync::ledger::Ledger;

/// Adds the level that a fact records of the session.
fn add_level(
    session: SessionId,
    levels: &mut Sequence<(u32, u64)>,
    fact: &Fact,
) -> Result<(), Memory>
    ensures { OnOk result (levels.new ≡ levels.old ++ level_recorded session fact.now) }
{
    match fact {
        Fact::Level {
            session: of,
            level,
            moment,
        } if same_id(&of.0, &session.0) => levels.push((*level, moment.millis())),
        _ => Ok(()),
    }
}

/// Adds those of these facts.
fn add_levels(
    session: SessionId,
    levels: &mut Sequence<(u32, u64)>,
    more: &[Fact],
) -> Result<(), Memory>
    ensures { OnOk result (levels.new ≡ levels.old ++ flat_map (level_recorded session) more.now) }
{
    for fact in more {
        add_level(session, levels, fact)?;
    }
    Ok(())
}

/// Adds that of the fact at a place, which is read only where it is about the session.
#[tactic(auto, using(crate::proofs::LevelLemmas::no_level_at))]
fn add_level_at<L: Ledger>(
    session: SessionId,
    levels: &mut Sequence<(u32, u64)>,
    chronicle: &Chronicle,
    index: usize,
    steps: &mut Steps<L>,
) -> Result<(), Memory>
    requires within { index < length chronicle.now.list }
    ensures { OnOk result (option_map (λ fact. levels.old ++ level_recorded session fact)
        (slice_get chronicle.now.list index) ≡ Some levels.new) }
{
    if chronicle.subject(index).is_of_session(session) {
        return add_level(session, levels, chronicle.at(index, steps));
    }
    Ok(())
}

/// Adds those of a chronicle.
fn add_kept_levels<L: Ledger>(
    session: SessionId,
    levels: &mut Sequence<(u32, u64)>,
    chronicle: &Chronicle,
    steps: &mut Steps<L>,
) -> Result<(), Memory>
    ensures { OnOk result (levels.new ≡ levels.old ++ flat_map (level_recorded session) chronicle.now.list) }
{
    for i in 0..chronicle.len() {
        add_level_at(session, levels, chronicle, i, steps)?;
    }
    Ok(())
}

/// The levels that a session has reached, each with its moment in milliseconds, in their order.
#[tactic(auto, unfolding(facts::specs::Levels::levels_of))]
pub fn levels_of<L: Ledger>(
    alloc: Global,
    facts: &Facts<'_>,
    session: SessionId,
    steps: &mut Steps<L>,
) -> Result<Sequence<(u32, u64)>, Memory>
    ensures ok { IfOk result (λ levels. levels ≡ levels_of session facts.now) }
{
    let (chronicle, more) = facts.parts();
    let mut levels = Sequence::new(alloc);
    add_kept_levels(session, &mut levels, chronicle, steps)?;
    add_levels(session, &mut levels, more)?;
    Ok(levels)
}
