//! The level that an open asks.
ghost use Rattle.std.specs.Prelude.{◌≡◌};
ghost use Rattle.std.specs.Option.{option_copied};
ghost use Rattle.std.specs.Str.{bytes_eq};
ghost use Rattle.root_asks.specs.NewTab.{client_named, check_client, acr_named, check_acr, check_level};

use facts::{AcrLevel, Client, NewTab, Realm};
use hall_answers::Refusal;
use login_base::Name;

fn is_client(client: &Client, id: &Name) -> bool
    ensures { result ≡ bytes_eq client.now.id id.now }
{
    client.id == *id
}

fn client_named<'a>(clients: &'a [Client], id: &Name) -> Option<&'a Client>
    ensures { option_copied result ≡ client_named clients.now id.now }
{
    clients.iter().find(|client| is_client(client, id))
}

/// The realm has a client of this id: its level.
#[tactic(auto, unfolding(crate::specs::NewTab::check_client))]
fn check_client(realm: &Realm, id: &Name) -> Result<u32, Refusal>
    ensures { result ≡ check_client realm.now id.now }
{
    match client_named(realm.parts().clients.as_slice(), id) {
        Some(client) => Ok(client.level),
        None => Err(Refusal::UnknownClient),
    }
}

fn is_acr(acr: &AcrLevel, name: &Name) -> bool
    ensures { result ≡ bytes_eq acr.now.name name.now }
{
    acr.name == *name
}

fn acr_named<'a>(levels: &'a [AcrLevel], name: &Name) -> Option<&'a AcrLevel>
    ensures { option_copied result ≡ acr_named levels.now name.now }
{
    levels.iter().find(|acr| is_acr(acr, name))
}

/// The realm has a level of this name; where none is named, it is 0.
#[tactic(auto, unfolding(crate::specs::NewTab::check_acr))]
fn check_acr(realm: &Realm, name: &Option<Name>) -> Result<u32, Refusal>
    ensures { result ≡ check_acr realm.now name.now }
{
    let Some(name) = name else {
        return Ok(0);
    };
    match acr_named(realm.parts().acr.as_slice(), name) {
        Some(acr) => Ok(acr.level),
        None => Err(Refusal::LevelUnknown),
    }
}

/// The level that an open asks: its client's, or that of the name, whichever is greater.
#[tactic(auto, unfolding(crate::specs::NewTab::check_level))]
pub(crate) fn check_level(realm: &Realm, new: &NewTab) -> Result<u32, Refusal>
    ensures { result ≡ check_level realm.now new.now }
{
    let own = check_client(realm, &new.client)?;
    let named = check_acr(realm, &new.acr)?;
    Ok(own.max(named))
}
