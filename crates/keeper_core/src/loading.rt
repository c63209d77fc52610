ghost use Rattle.std.specs.Prelude.{◌≡◌, false, IfOk};
ghost use Rattle.keeper_core.specs.Keeping.{IsAnswer, KeepsRules, is_failed_load};

use crate::keeper::LoadFault;
use keeper_rows::Tables;
use keeper_rules::{foreign_of, misfit_of};
use std::alloc::Global;

/// What a load answers that found these tables.
pub fn checked(alloc: Global, tables: Tables) -> Result<Tables, LoadFault>
    ensures answer { IsAnswer tables result }
    ensures sound { IfOk result KeepsRules }
    ensures held { is_failed_load result ≡ false }
{
    if let Some(version) = foreign_of(&tables) {
        return Err(LoadFault::Foreign { version });
    }
    match misfit_of(alloc, &tables)? {
        Some(misfit) => Err(LoadFault::Misfit {
            rule: misfit.rule,
            row: misfit.row,
        }),
        None => Ok(tables),
    }
}
