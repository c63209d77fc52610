ghost use Rattle.std.specs.Prelude.{◌≡◌, IfOk};
ghost use Rattle.fact_rows.specs.Rows.{realm_row};

use fact_scans::{current_realm, last_version};
use facts::Facts;
use keeper_rows::RealmRow;
use login_base::{Duplicate, Memory};
use std::alloc::Global;

/// The realm in force, with its version. No fact of the chronicle is read.
#[tactic(auto, unfolding(crate::specs::Rows::realm_row))]
pub fn realm_row(alloc: Global, facts: &Facts<'_>) -> Result<Option<RealmRow>, Memory>
    ensures ok { IfOk result (λ row. row ≡ realm_row facts.now) }
{
    match current_realm(facts) {
        Some(realm) => Ok(Some(RealmRow {
            version: last_version(facts),
            realm: realm.duplicate(alloc)?,
        })),
        None => Ok(None),
    }
}
