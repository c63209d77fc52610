ghost use Rattle.std.specs.Prelude.{◌≡◌};
ghost use Rattle.realm_fields.specs.Words.{requirement_of, leaf_kind_of, exec_kind_of, mode_of, action_of};
ghost use Rattle.realm_fields.specs.Reading.{Gives, or_out_of_range};

use crate::stop::{Stop, out_of_range, wrong_kind};
use crate::values::{Reads, text};
use flow_tree::{Kind, Requirement};
use hex::FromHex;
use lockout::Mode;
use login_base::{Name, read_name};
use realm_data::Action;
use std::alloc::Global;
use toml::Value;

/// What the word `kind` of an execution says.
#[derive(Clone, Copy, Debug, PartialEq, Eq)]
pub enum ExecKind {
    Auth(Kind),
    Configured,
    Role,
    Level,
    Flow,
}

pub fn requirement_of(word: &[u8]) -> Option<Requirement>
    ensures { result ≡ requirement_of word.now }
{
    if word == b"required".as_slice() {
        Some(Requirement::Required)
    } else if word == b"alternative".as_slice() {
        Some(Requirement::Alternative)
    } else if word == b"conditional".as_slice() {
        Some(Requirement::Conditional)
    } else if word == b"disabled".as_slice() {
        Some(Requirement::Disabled)
    } else {
        None
    }
}

#[tactic(auto, unfolding(crate::specs::Words::leaf_kind_of))]
fn leaf_kind_of(word: &[u8]) -> Option<Kind>
    ensures { result ≡ leaf_kind_of word.now }
{
    if word == b"allow".as_slice() {
        Some(Kind::Allow)
    } else if word == b"deny".as_slice() {
        Some(Kind::Deny)
    } else if word == b"cookie".as_slice() {
        Some(Kind::Cookie)
    } else if word == b"username".as_slice() {
        Some(Kind::Username)
    } else if word == b"password".as_slice() {
        Some(Kind::Password)
    } else if word == b"form".as_slice() {
        Some(Kind::Form)
    } else if word == b"otp".as_slice() {
        Some(Kind::Otp)
    } else if word == b"recovery".as_slice() {
        Some(Kind::Recovery)
    } else {
        None
    }
}

#[tactic(auto, unfolding(crate::specs::Words::exec_kind_of))]
pub fn exec_kind_of(word: &[u8]) -> Option<ExecKind>
    ensures { result ≡ exec_kind_of word.now }
{
    if word == b"configured".as_slice() {
        Some(ExecKind::Configured)
    } else if word == b"role".as_slice() {
        Some(ExecKind::Role)
    } else if word == b"level".as_slice() {
        Some(ExecKind::Level)
    } else if word == b"flow".as_slice() {
        Some(ExecKind::Flow)
    } else {
        match leaf_kind_of(word) {
            Some(kind) => Some(ExecKind::Auth(kind)),
            None => None,
        }
    }
}

fn mode_of(word: &[u8]) -> Option<Mode>
    ensures { result ≡ mode_of word.now }
{
    if word == b"temporary".as_slice() {
        Some(Mode::Temporary)
    } else if word == b"permanent".as_slice() {
        Some(Mode::Permanent)
    } else {
        None
    }
}

/// The action of a word.
#[tactic(auto, unfolding(crate::specs::Words::action_of))]
pub fn action_of(word: &[u8]) -> Option<Action>
    ensures value { result ≡ action_of word.now }
{
    if word == b"terms".as_slice() {
        Some(Action::Terms)
    } else if word == b"verify_email".as_slice() {
        Some(Action::VerifyEmail)
    } else if word == b"update_password".as_slice() {
        Some(Action::UpdatePassword)
    } else if word == b"configure_otp".as_slice() {
        Some(Action::ConfigureOtp)
    } else if word == b"recovery_codes".as_slice() {
        Some(Action::RecoveryCodes)
    } else {
        None
    }
}

/// What was found of a word in the grammar.
fn or_out_of_range<T: Drop>(alloc: Global, path: &[u8], found: Option<T>) -> Result<T, Stop>
    ensures { Gives result (or_out_of_range path.now found) }
{
    match found {
        Some(value) => Ok(value),
        None => out_of_range(alloc, path),
    }
}

impl Reads for Requirement {
    ghost use Rattle.std.specs.Prelude.{true};
    ghost use Rattle.realm_fields.specs.Reading.{word_in};
    ghost use Rattle.realm_fields.specs.Words.{requirement_of};

    ghost meant = { word_in requirement_of };

    ghost fits = { λ _. true };

    fn read(alloc: Global, path: &[u8], value: &Value) -> Result<Requirement, Stop> {
        let word = text(alloc, path, value)?;
        or_out_of_range(alloc, path, requirement_of(word.as_bytes()))
    }
}

impl Reads for ExecKind {
    ghost use Rattle.std.specs.Prelude.{true};
    ghost use Rattle.realm_fields.specs.Reading.{word_in};
    ghost use Rattle.realm_fields.specs.Words.{exec_kind_of};

    ghost meant = { word_in exec_kind_of };

    ghost fits = { λ _. true };

    fn read(alloc: Global, path: &[u8], value: &Value) -> Result<ExecKind, Stop> {
        let word = text(alloc, path, value)?;
        or_out_of_range(alloc, path, exec_kind_of(word.as_bytes()))
    }
}

impl Reads for Mode {
    ghost use Rattle.std.specs.Prelude.{true};
    ghost use Rattle.realm_fields.specs.Reading.{word_in};
    ghost use Rattle.realm_fields.specs.Words.{mode_of};

    ghost meant = { word_in mode_of };

    ghost fits = { λ _. true };

    fn read(alloc: Global, path: &[u8], value: &Value) -> Result<Mode, Stop> {
        let word = text(alloc, path, value)?;
        or_out_of_range(alloc, path, mode_of(word.as_bytes()))
    }
}

impl Reads for Action {
    ghost use Rattle.std.specs.Prelude.{true};
    ghost use Rattle.realm_fields.specs.Reading.{word_in};
    ghost use Rattle.realm_fields.specs.Words.{action_of};

    ghost meant = { word_in action_of };

    ghost fits = { λ _. true };

    fn read(alloc: Global, path: &[u8], value: &Value) -> Result<Action, Stop> {
        let word = text(alloc, path, value)?;
        or_out_of_range(alloc, path, action_of(word.as_bytes()))
    }
}

impl Reads for Name {
    ghost use Rattle.realm_fields.specs.Reading.{word_in};
    ghost use Rattle.realm_fields.specs.Words.{name_of};
    ghost use Rattle.login_base.specs.Names.{is_name};

    ghost meant = { word_in name_of };

    ghost fits = { is_name };

    fn read(alloc: Global, path: &[u8], value: &Value) -> Result<Name, Stop> {
        let word = text(alloc, path, value)?;
        match read_name(alloc, word.as_bytes())? {
            Some(name) => Ok(name),
            None => out_of_range(alloc, path),
        }
    }
}

impl Reads for bool {
    ghost use Rattle.std.specs.Prelude.{true};
    ghost use Rattle.realm_fields.specs.Reading.{flag_in};

    ghost meant = { flag_in };

    ghost fits = { λ _. true };

    fn read(alloc: Global, path: &[u8], value: &Value) -> Result<bool, Stop> {
        match value.as_bool() {
            Some(flag) => Ok(flag),
            None => wrong_kind(alloc, path),
        }
    }
}

impl Reads for [u8; 32] {
    ghost use Rattle.realm_fields.specs.Reading.{word_in};
    ghost use Rattle.realm_fields.specs.Words.{digest_of};
    ghost use Rattle.realm_data.specs.Secrets.{is_digest};

    ghost meant = { word_in digest_of };

    ghost fits = { is_digest };

    fn read(alloc: Global, path: &[u8], value: &Value) -> Result<[u8; 32], Stop> {
        let word = text(alloc, path, value)?;
        match <[u8; 32] as FromHex>::from_hex(word) {
            Ok(digest) => Ok(digest),
            Err(_) => out_of_range(alloc, path),
        }
    }
}
