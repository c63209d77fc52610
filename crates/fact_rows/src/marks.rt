ghost use Rattle.std.specs.Prelude.{◌≡◌};
ghost use Rattle.fact_rows.specs.Rows.{mark_with};

use fact_columns::column;
use fact_scans::last_stored_serial;
use facts::Facts;
use keeper_rows::MarkRow;
use login_base::Moment;

/// How far the stored serials have come, and the moment of the last change. No fact of the
/// chronicle is read.
#[tactic(auto, unfolding(crate::specs::Rows::mark_with))]
pub fn mark_with(facts: &Facts<'_>, moment: Moment) -> MarkRow
    ensures value { result ≡ mark_with moment facts.now }
{
    MarkRow {
        schema: 1,
        serial: column(last_stored_serial(facts)),
        moment: moment.millis() as i64,
    }
}
