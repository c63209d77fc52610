ghost use Rattle.std.specs.Prelude.{◌≡◌};
ghost use Rattle.ask_pairs.specs.Admin.{admin_word, with_key, word_given};

use crate::place::Place;

/// The word of an administrator's verb.
#[derive(Clone, Copy, Debug, PartialEq, Eq)]
pub enum AdminWord {
    UserAdd,
    Roles,
    SetPassword,
    OtpSet,
    OtpRemove,
    Require,
    Enable,
    Disable,
    Unlock,
    Token,
    Revoke,
    Sweep,
    RealmPut,
}

#[tactic(auto, unfolding(crate::specs::Admin::admin_word))]
fn admin_word(word: &[u8]) -> Option<AdminWord>
    ensures { result ≡ admin_word word.now }
{
    if word == b"user-add".as_slice() {
        Some(AdminWord::UserAdd)
    } else if word == b"roles".as_slice() {
        Some(AdminWord::Roles)
    } else if word == b"set-password".as_slice() {
        Some(AdminWord::SetPassword)
    } else if word == b"otp-set".as_slice() {
        Some(AdminWord::OtpSet)
    } else if word == b"otp-remove".as_slice() {
        Some(AdminWord::OtpRemove)
    } else if word == b"require".as_slice() {
        Some(AdminWord::Require)
    } else if word == b"enable".as_slice() {
        Some(AdminWord::Enable)
    } else if word == b"disable".as_slice() {
        Some(AdminWord::Disable)
    } else if word == b"unlock".as_slice() {
        Some(AdminWord::Unlock)
    } else if word == b"token".as_slice() {
        Some(AdminWord::Token)
    } else if word == b"revoke".as_slice() {
        Some(AdminWord::Revoke)
    } else if word == b"sweep".as_slice() {
        Some(AdminWord::Sweep)
    } else if word == b"realm-put".as_slice() {
        Some(AdminWord::RealmPut)
    } else {
        None
    }
}

/// The verb, where it is open to an ask with a key: a realm is put by a script or the command line
/// alone.
fn with_key(word: AdminWord) -> Result<AdminWord, Place>
    ensures { result ≡ with_key word }
{
    match word {
        AdminWord::RealmPut => Err(Place::Verb),
        _ => Ok(word),
    }
}

/// The verb of a word, where it is open to the ask.
pub fn word_given(local: bool, verb: &[u8]) -> Result<AdminWord, Place>
    ensures word { result ≡ word_given local verb.now }
{
    match admin_word(verb) {
        Some(word) => { if local { Ok(word) } else { with_key(word) } }
        None => Err(Place::Verb),
    }
}
