ghost use Rattle.std.specs.Prelude.{◌≡◌, IfOk, codes, Ok};
ghost use Rattle.asks.specs.declared.ask.Ask.TheVariants as asks;
ghost use Rattle.ask_pairs.specs.Admin.{revoke, realm_in, realm_put, admin_read, with_access, is_local, admin_of, admin_ask};
ghost use Rattle.ask_pairs.specs.Pairs.{value_of};
ghost use Rattle.ask_pairs.specs.Places.{ask_or_bad};

use crate::access::access_of;
use crate::accounts::{
    AccountVerb, account_verb, otp_set, require, roles, set_password, token, user_add,
};
use crate::admin_word::{AdminWord, word_given};
use crate::credentials::has_replacement;
use crate::keys::id_given;
use crate::pairs::{Pair, value_of};
use crate::place::{Place, bad};
use asks::{Access, AdminVerb, Ask};
use login_base::{Memory, SessionId};
use realm_data::Realm;
use realm_file::{RealmFault, read_realm};
use std::alloc::Global;

fn revoke(pairs: &[Pair]) -> Result<AdminVerb, Place>
    ensures { result ≡ revoke pairs.now }
{
    let session = id_given(Place::Session, pairs)?;
    Ok(AdminVerb::Revoke {
        session: SessionId(session),
    })
}

/// The realm that a text describes, or none where it is no realm.
fn realm_in(alloc: Global, text: &[u8]) -> Result<Option<Realm>, Memory>
    ensures realm { IfOk result (λ realm. realm ≡ realm_in text.now) }
{
    match read_realm(alloc, text) {
        Ok(realm) => Ok(Some(realm)),
        Err(RealmFault::Memory) => Err(Memory),
        Err(_) => Ok(None),
    }
}

fn realm_put(alloc: Global, pairs: &[Pair]) -> Result<Result<AdminVerb, Place>, Memory>
    ensures { IfOk result (λ verb. verb ≡ realm_put (value_of (codes "text") pairs.now)) }
{
    match value_of(pairs, b"text") {
        Some(text) if !has_replacement(text) => Ok(Ok(AdminVerb::RealmPut {
            realm: realm_in(alloc, text)?,
        })),
        _ => Ok(Err(Place::Text)),
    }
}

/// What a verb asks of the pairs.
#[tactic(auto, unfolding(crate::specs::Admin::admin_read))]
fn admin_read(
    alloc: Global,
    word: AdminWord,
    pairs: &[Pair],
) -> Result<Result<AdminVerb, Place>, Memory>
    ensures { IfOk result (λ verb. verb ≡ admin_read word pairs.now) }
{
    match word {
        AdminWord::UserAdd => user_add(alloc, pairs),
        AdminWord::Roles => roles(alloc, pairs),
        AdminWord::SetPassword => set_password(alloc, pairs),
        AdminWord::OtpSet => otp_set(alloc, pairs),
        AdminWord::OtpRemove => account_verb(alloc, AccountVerb::OtpRemove, pairs),
        AdminWord::Require => require(alloc, pairs),
        AdminWord::Enable => account_verb(alloc, AccountVerb::Enable, pairs),
        AdminWord::Disable => account_verb(alloc, AccountVerb::Disable, pairs),
        AdminWord::Unlock => account_verb(alloc, AccountVerb::Unlock, pairs),
        AdminWord::Token => token(alloc, pairs),
        AdminWord::Revoke => Ok(revoke(pairs)),
        AdminWord::Sweep => Ok(Ok(AdminVerb::Sweep)),
        AdminWord::RealmPut => realm_put(alloc, pairs),
    }
}

/// The ask of a verb that is known, by an access.
fn with_access(
    alloc: Global,
    word: AdminWord,
    access: Access,
    pairs: &[Pair],
) -> Result<Ask, Memory>
    ensures ask { IfOk result (λ ask. ask ≡ ask_or_bad (with_access word access pairs.now)) }
{
    match admin_read(alloc, word, pairs)? {
        Ok(verb) => Ok(Ask::Admin { access, verb }),
        Err(place) => bad(alloc, place),
    }
}

fn is_local(access: &Access) -> bool
    ensures { result ≡ is_local access.now }
{
    match access {
        Access::Local => true,
        Access::Key(_) => false,
    }
}

/// The ask of an administrator's verb and its pairs, by this access, or `Ask::Bad` at the first
/// place that is malformed: the verb, then its pairs in their order. With a key no realm can be put,
/// and its verb is malformed.
pub fn admin_of(alloc: Global, verb: &[u8], pairs: &[Pair], access: Access) -> Result<Ask, Memory>
    ensures ask { IfOk result (λ ask. ask ≡ admin_of verb.now pairs.now access) }
{
    match word_given(is_local(&access), verb) {
        Ok(word) => with_access(alloc, word, access, pairs),
        Err(place) => bad(alloc, place),
    }
}

/// The same with the access that the pairs give: the verb, then the key, then the verb's pairs.
pub fn admin_ask(alloc: Global, local: bool, verb: &[u8], pairs: &[Pair]) -> Result<Ask, Memory>
    ensures ask { IfOk result (λ ask. ask ≡ admin_ask local verb.now pairs.now) }
{
    match word_given(local, verb) {
        Ok(word) => match access_of(local, pairs) {
            Ok(access) => with_access(alloc, word, access, pairs),
            Err(place) => bad(alloc, place),
        },
        Err(place) => bad(alloc, place),
    }
}
