//! What a batch does to tables that stand for the facts before it.
ghost use Rattle.std.specs.Prelude.{◌≡◌, [], ◌∷◌, ◌++◌, ◌==◌, not, false, length};
ghost use Rattle.std.specs.List.{list_any};
ghost use Rattle.keeper_rows.specs.Applied.{no_rows, applied};
ghost use Rattle.facts.specs.declared.fact.Fact.TheVariants as events;
ghost use Rattle.fact_rows.specs.StandFor.{StandFor};
ghost use Rattle.fact_rows.specs.Stored.{has_stored, is_opening_value};
ghost use Rattle.fact_batches.specs.Batch.{batch_of, stored_moment};

use facts::Fact;
use keeper_rows::Tables;
use login_base::Moment;

/// Tables that stand for facts stand, after the batch of those that are added, for all of them. No
/// added fact is an opening value.
pub fn tables_stand_on(
    tables: &Tables,
    before: &[Fact],
    added: &[Fact],
    changed: Moment,
    moment: Moment,
)
    requires stand { StandFor tables.now changed before.now }
    requires plain { list_any is_opening_value added.now ≡ false }
    ensures stand { StandFor (applied (batch_of moment before.now added.now) tables.now)
        (stored_moment changed moment added.now) (before.now ++ added.now) }
{}

/// A batch is empty exactly where none of the added facts is stored.
pub fn batch_is_empty_where_nothing_is_stored(before: &[Fact], added: &[Fact], moment: Moment)
    ensures empty { (length (batch_of moment before.now added.now) == 0) ≡ not (has_stored added.now) }
{}

/// Tables without a row stand for no facts, and for a mark whose numbers are all 0.
pub fn empty_tables_stand(moment: Moment)
    ensures nothing { StandFor no_rows moment [] }
    ensures mark { StandFor no_rows moment (events.Mark 0 0 0 0 ∷ []) }
{}
