ghost use Rattle.std.specs.Prelude.{◌≡◌, IfOk, OnOk};
ghost use Rattle.keeper_reports.specs.Names.{IsNoted, ArePlaces};
ghost use Rattle.keeper_reports.specs.Reports.{name_of};

use keeper_rows::AccountRow;
use login_base::Memory;
use std::alloc::Global;
use std::collections::BTreeMap;

/// Notes the place of an id, unless it has one.
fn note(places: &mut BTreeMap<i64, usize>, id: &i64, place: usize) -> Result<(), Memory>
    ensures { OnOk result (IsNoted places.old places.new id.now place) }
{
    let id = *id;
    if !places.contains_key(&id) {
        places.insert(id, place)?;
    }
    Ok(())
}

/// The place of the first account of each id.
pub(crate) fn places_of(
    alloc: Global,
    accounts: &[AccountRow],
) -> Result<BTreeMap<i64, usize>, Memory>
    ensures { IfOk result (λ places. ArePlaces places accounts.now) }
{
    let mut places = BTreeMap::new(alloc);
    for (place, account) in accounts.iter().enumerate() {
        note(&mut places, &account.id, place)?;
    }
    Ok(places)
}

/// The name of the first account of this id, or nothing.
pub(crate) fn name_of<'a>(
    places: &BTreeMap<i64, usize>,
    accounts: &'a [AccountRow],
    id: &i64,
) -> &'a [u8]
    requires { ArePlaces places.now accounts.now }
    ensures { result.now ≡ name_of accounts.now id.now }
{
    match places.get(id) {
        Some(place) => accounts[*place].name.as_bytes(),
        None => b"",
    }
}
