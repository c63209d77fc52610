ghost use Rattle.std.specs.Prelude.{◌≡◌, ◌<◌, ◌-◌, ◌^◌, ◌∷◌, [], IfOk, IfErr};
ghost use Rattle.facts.specs.Realms.{last_version};
ghost use Rattle.hall_answers.specs.HasSerials.{HasSerials};
ghost use Rattle.admin_asks.specs.RealmPut.{check_realm, version_text, answer_to_realm, due_realm_put};

use fact_scans::last_version;
use facts::{Fact, Facts, Realm, What};
use hall_answers::{Answer, Refusal, Setting, refused};
use login_base::{Duplicate, Memory, Sequence, Steps};
use std::alloc::Global;
use std::sync::ledger::Ledger;

/// The text was a realm.
#[tactic(auto, unfolding(crate::specs::RealmPut::check_realm))]
fn check_realm(realm: &Option<Realm>) -> Result<&Realm, Refusal>
    ensures ok { IfOk result (λ kept. check_realm realm.now ≡ Ok kept.now) }
    ensures err { IfErr result (λ refusal. check_realm realm.now ≡ Err refusal) }
{
    match realm {
        Some(realm) => Ok(realm),
        None => Err(Refusal::RealmRefused),
    }
}

fn version_text(alloc: Global, version: u64) -> Result<Sequence<u8>, Memory>
    ensures { IfOk result (λ text. text ≡ version_text version) }
{
    let mut text = Vec::new(alloc);
    text.extend_from_slice(b"realm version=")?;
    let number = version.to_string(alloc)?;
    text.extend_from_slice(number.as_bytes())?;
    Ok(Sequence::from_vec(text))
}

/// The realm is in force from now on, as the next version.
fn answer_to_realm(alloc: Global, facts: &Facts<'_>, realm: &Realm) -> Result<Answer, Memory>
    requires serials { HasSerials facts.now (2 ^ 63 - 8) }
    ensures { IfOk result (λ answer. answer ≡ answer_to_realm facts.now realm.now) }
{
    let version = last_version(facts) + 1;
    let text = version_text(alloc, version)?;
    let realm = realm.duplicate(alloc)?;
    let mut added = Sequence::new(alloc);
    added.push(Fact::RealmPut { version, realm })?;
    Ok(Answer::plain(What::Told { text }, added))
}

/// What the putting of a realm is due. None stands for a text that is no realm.
#[tactic(auto, unfolding(crate::specs::RealmPut::due_realm_put))]
pub(crate) fn due_realm_put<L: Ledger>(
    setting: &Setting<'_>,
    realm: &Option<Realm>,
    steps: &mut Steps<L>,
) -> Result<Answer, Memory>
    requires serials { HasSerials setting.now.facts (2 ^ 63 - 8) }
    ensures { IfOk result (λ answer. answer ≡ due_realm_put setting.now realm.now) }
{
    let facts = setting.facts();
    match check_realm(realm) {
        Ok(realm) => answer_to_realm(setting.alloc, &facts, realm),
        Err(refusal) => refused(setting.alloc, &facts, None, refusal, steps),
    }
}
