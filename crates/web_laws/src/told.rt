ghost use Rattle.std.specs.Prelude.{IsTrue};
ghost use Rattle.web_laws.specs.Told.{verb_has_name, tells_name};

use asks::{AdminVerb, Ask};

/// The name of a verb is one, as its type says.
fn know_verb(verb: &AdminVerb)
    ensures name { IsTrue (verb_has_name verb.now) }
{
    match verb {
        AdminVerb::UserAdd(new) => {
            let _name = new.name.as_bytes();
        }
        AdminVerb::Roles { name, roles: _ }
        | AdminVerb::SetPassword { name, password: _ }
        | AdminVerb::OtpSet { name, secret: _ }
        | AdminVerb::OtpRemove { name }
        | AdminVerb::Require { name, action: _ }
        | AdminVerb::Enable { name }
        | AdminVerb::Disable { name }
        | AdminVerb::Unlock { name }
        | AdminVerb::Token {
            name,
            action: _,
            life: _,
        } => {
            let _name = name.as_bytes();
        }
        AdminVerb::RealmPut { realm: _ } | AdminVerb::Revoke { session: _ } | AdminVerb::Sweep => {}
    }
}

/// What an administrator is told is of a name, as its type says.
pub fn know_told(ask: &Ask)
    ensures name { IsTrue (tells_name ask.now) }
{
    match ask {
        Ask::Admin { access: _, verb } => know_verb(verb),
        Ask::Bad { at: _ }
        | Ask::NewTab(_)
        | Ask::Page { root: _, tab: _ }
        | Ask::Post(_)
        | Ask::Verify { key: _ }
        | Ask::Reset {
            key: _,
            password: _,
        }
        | Ask::Logout { root: _ } => {}
    }
}
