ghost use Rattle.std.specs.Prelude.{◌≡◌, ℕ, List, [], option_map, IfOk};
ghost use Rattle.realm_fields.specs.Reading.{Gives};
ghost use Rattle.realm_file.specs.Rules.{doubled_from, doubled_path, not_doubled, names_apart, is_unbound, acr_bound, clients_bound, levels_bound};

use flow_tree::Tree;
use login_base::{Memory, Name, Sequence};
use realm_data::{AcrLevel, Client, RealmUser};
use realm_fields::{RealmFault, Stop, item_path, key_path};
use std::alloc::Global;
use std::collections::BTreeSet;

/// What has a name that no other may have.
trait Named {
    ghost name: { Self → List ℕ };

    fn name(&self) -> &Name
        ensures { result.now ≡ name self.now };
}

impl Named for Client {
    ghost name = { λ c. c.id };

    fn name(&self) -> &Name {
        &self.id
    }
}

impl Named for RealmUser {
    ghost name = { λ u. u.name };

    fn name(&self) -> &Name {
        &self.name
    }
}

/// The place of the first item whose name an earlier one has.
fn first_doubled<T: Named>(alloc: Global, items: &[T]) -> Result<Option<usize>, Memory>
    ensures { IfOk result (λ place. place ≡ doubled_from T.name [] 0 items.now) }
{
    let mut seen = BTreeSet::new(alloc);
    'items: for (i, item) in items.iter().enumerate() {
        if !seen.insert(item.name().as_bytes())? {
            return Ok(Some(i));
        }
    }
    Ok(None)
}

/// The path of a key of the first item of an array whose name an earlier one has.
fn doubled_path(
    alloc: Global,
    list: &[u8],
    key: &[u8],
    place: Option<usize>,
) -> Result<Option<Sequence<u8>>, Memory>
    ensures { IfOk result (λ path. path ≡ option_map (doubled_path list.now key.now) place) }
{
    match place {
        Some(i) => {
            let item = item_path(alloc, list, i)?;
            Ok(Some(key_path(alloc, item.as_slice(), key)?))
        }
        None => Ok(None),
    }
}

fn not_doubled(path: Option<Sequence<u8>>) -> Result<(), Stop>
    ensures { Gives result (not_doubled path) }
{
    match path {
        Some(path) => Err(Stop::Fault(RealmFault::Doubled { path })),
        None => Ok(()),
    }
}

/// No two clients have one id, and no two users one name.
pub fn check_names_apart(alloc: Global, clients: &[Client], users: &[RealmUser]) -> Result<(), Stop>
    ensures { Gives result (names_apart clients.now users.now) }
{
    let place = first_doubled(alloc, clients)?;
    not_doubled(doubled_path(alloc, b"client", b"id", place)?)?;
    let place = first_doubled(alloc, users)?;
    not_doubled(doubled_path(alloc, b"user", b"name", place)?)
}

/// The level is above 0, and no live condition of the flow asks it.
fn is_unbound(flow: &Tree, level: u32) -> bool
    ensures { result ≡ is_unbound flow.now level }
{
    level != 0 && flow.live_age(level).is_none()
}

/// Each named level above 0 has a live condition.
#[tactic(auto, unfolding(crate::specs::Rules::acr_bound))]
fn check_acr(alloc: Global, flow: &Tree, acr: &[AcrLevel]) -> Result<(), Stop>
    ensures { Gives result (acr_bound flow.now acr.now) }
{
    'levels: for level in acr {
        if is_unbound(flow, level.level) {
            let path = key_path(alloc, b"acr", level.name.as_bytes())?;
            return Err(Stop::Fault(RealmFault::UnboundLevel { path }));
        }
    }
    Ok(())
}

/// Each client's level above 0 has a live condition.
#[tactic(auto, unfolding(crate::specs::Rules::clients_bound))]
fn check_clients(alloc: Global, flow: &Tree, clients: &[Client]) -> Result<(), Stop>
    ensures { Gives result (clients_bound flow.now 0 clients.now) }
{
    'clients: for (i, client) in clients.iter().enumerate() {
        if is_unbound(flow, client.level) {
            let item = item_path(alloc, b"client", i)?;
            let path = key_path(alloc, item.as_slice(), b"level")?;
            return Err(Stop::Fault(RealmFault::UnboundLevel { path }));
        }
    }
    Ok(())
}

/// Each level above 0 has a live condition.
pub fn check_bound(
    alloc: Global,
    flow: &Tree,
    acr: &[AcrLevel],
    clients: &[Client],
) -> Result<(), Stop>
    ensures { Gives result (levels_bound flow.now acr.now clients.now) }
{
    check_acr(alloc, flow, acr)?;
    check_clients(alloc, flow, clients)
}
