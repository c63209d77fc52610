ghost use Rattle.std.specs.Prelude.{◌≡◌, ◌++◌, true, IfOk, OnOk};
ghost use Rattle.fact_rows.specs.Due.{row_due};
ghost use Rattle.fact_rows.specs.Stored.{has_rows};
ghost use Rattle.fact_batches.specs.Batch.{drop_of, put_of, changes_to, batch_of};

use crate::keys::touched;
use fact_rows::{has_stored, row_due};
use facts::{Chronicle, Fact, Facts};
use keeper_rows::{Batch, Change, Row, RowKey};
use login_base::{Duplicate, Memory, Moment, Sequence, Steps};
use std::alloc::Global;
use std::sync::ledger::Ledger;

/// Adds the change at a key: where no row is due, the one that is there goes, else the due one is
/// put.
fn add_change(
    alloc: Global,
    drops: &mut Sequence<Change>,
    puts: &mut Sequence<Change>,
    key: &RowKey,
    due: Option<Row>,
) -> Result<(), Memory>
    ensures drops { OnOk result (drops.new ≡ drops.old ++ drop_of key.now due) }
    ensures puts { OnOk result (puts.new ≡ puts.old ++ put_of due) }
{
    match due {
        Some(row) => puts.push(Change::Put(row)),
        None => drops.push(Change::Drop(key.duplicate(alloc)?)),
    }
}

/// One sequence behind the other.
fn joined<T: Drop>(first: Sequence<T>, second: Sequence<T>) -> Result<Sequence<T>, Memory>
    ensures { IfOk result (λ all. all ≡ first ++ second) }
{
    let mut all = first.into_vec();
    let mut more = second.into_vec();
    all.append(&mut more)?;
    Ok(Sequence::from_vec(all))
}

/// The changes at these keys to the rows that the facts give, the drops before the puts.
fn changes_to<L: Ledger>(
    alloc: Global,
    facts: &Facts<'_>,
    moment: Moment,
    keys: &[RowKey],
    steps: &mut Steps<L>,
) -> Result<Sequence<Change>, Memory>
    requires some { has_rows facts.now ≡ true }
    ensures { IfOk result (λ changes. changes ≡ changes_to (row_due moment facts.now) keys.now) }
{
    let mut drops = Sequence::new(alloc);
    let mut puts = Sequence::new(alloc);
    for key in keys {
        let due = row_due(alloc, facts, moment, key, steps)?;
        add_change(alloc, &mut drops, &mut puts, key, due)?;
    }
    joined(drops, puts)
}

/// The changes of rows for facts that are added at a moment behind a chronicle's list: none, where
/// none of them is stored. They are found by the keys that the facts name.
#[tactic(auto, using(crate::proofs::StoredLemmas::rows_there), unfolding(crate::specs::Batch::batch_of))]
pub fn batch<L: Ledger>(
    alloc: Global,
    before: &Chronicle,
    added: &[Fact],
    moment: Moment,
    steps: &mut Steps<L>,
) -> Result<Batch, Memory>
    ensures ok { IfOk result (λ batch. batch.changes ≡ batch_of moment before.now.list added.now) }
{
    if !has_stored(added) {
        return Ok(Batch {
            changes: Sequence::new(alloc),
        });
    }
    let mut keys = touched(alloc, &Facts::of(before), added, steps)?;
    keys.push(RowKey::Mark)?;
    let after = Facts::with(before, added);
    let changes = changes_to(alloc, &after, moment, keys.as_slice(), steps)?;
    Ok(Batch { changes })
}
