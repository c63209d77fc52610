ghost use Rattle.std.specs.Prelude.{◌≡◌, ◌<◌, [], length, IfOk};
ghost use Rattle.login_desk.specs.RealmGiven.{realm_given, refusal_line, Comes};

use crate::whole::WHOLE_LIMIT;
use login_base::{Memory, Sequence};
use realm_data::Realm;
use realm_file::{RealmFault, fault_text, read_realm};
use std::alloc::Global;

/// What the bytes of a realm source come to.
#[derive(Debug, Drop)]
pub enum Given {
    /// The realm to go on with, none where there are no bytes.
    Realm(Option<Realm>),
    /// They are no realm.
    Refused(RealmFault),
    Memory,
}

/// More bytes than a realm may have.
pub fn too_long(alloc: Global) -> RealmFault
    ensures refusal { result ≡ RealmFault.OutOfRange [] }
{
    RealmFault::OutOfRange {
        path: Sequence::new(alloc),
    }
}

#[tactic(auto, unfolding(crate::specs::RealmGiven::realm_given))]
fn realm_read(alloc: Global, bytes: &[u8]) -> Given
    requires some { 0 < length bytes.now }
    ensures { Comes result (realm_given bytes.now) }
{
    if bytes.len() > WHOLE_LIMIT {
        return Given::Refused(too_long(alloc));
    }
    match read_realm(alloc, bytes) {
        Ok(realm) => Given::Realm(Some(realm)),
        Err(RealmFault::Memory) => Given::Memory,
        Err(fault) => Given::Refused(fault),
    }
}

/// The realm that is given, if any.
#[tactic(auto, unfolding(crate::specs::RealmGiven::realm_given))]
pub fn realm_given(alloc: Global, bytes: &[u8]) -> Given
    ensures given { Comes result (realm_given bytes.now) }
{
    if bytes.is_empty() {
        return Given::Realm(None);
    }
    realm_read(alloc, bytes)
}

/// The line on bytes that are no realm.
pub fn refusal_line(alloc: Global, refusal: &RealmFault) -> Result<Vec<u8>, Memory>
    ensures line { IfOk result (λ line. line.items ≡ refusal_line refusal.now) }
{
    let mut line = Vec::from_slice(alloc, b"error 3 realm ")?;
    line.extend_from_slice(fault_text(alloc, refusal)?.as_slice())?;
    line.push(b'\n')?;
    Ok(line)
}
