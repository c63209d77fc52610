ghost use Rattle.std.specs.Prelude.{◌≡◌, ◌<◌, ◌≤◌, ◌==◌, length, position, IfOk, IfSome};
ghost use Rattle.keeper_columns.specs.Words.{secret_kind, token_kind, action_in, place_of, reached, level_at, level_in, roles_in, actions_in, steps_in, levels_in, newest_step, are_near, are_steps_near};

use crate::levels::ReachedLevel;
use crate::lists::{ListItem, read_list};
use crate::ranges::LAST_MOMENT;
use asks::TokenAction;
use conditions::SecretKind;
use decimal_text::number;
use login_base::{Memory, Moment, Name, Sequence, read_name};
use realm_data::Action;
use std::alloc::Global;
use std::cmp::Ordering;

/// The kind of a secret, by its word.
pub fn secret_kind(word: &[u8]) -> Option<SecretKind>
    ensures kind { result ≡ secret_kind word.now }
{
    if word == b"password".as_slice() {
        Some(SecretKind::Password)
    } else if word == b"otp".as_slice() {
        Some(SecretKind::Otp)
    } else if word == b"recovery".as_slice() {
        Some(SecretKind::Recovery)
    } else {
        None
    }
}

/// What a token is for, by its word.
pub fn token_kind(word: &[u8]) -> Option<TokenAction>
    ensures kind { result ≡ token_kind word.now }
{
    if word == b"verify_email".as_slice() {
        Some(TokenAction::VerifyEmail)
    } else if word == b"update_password".as_slice() {
        Some(TokenAction::UpdatePassword)
    } else {
        None
    }
}

fn action_in(word: &[u8]) -> Option<Action>
    ensures { result ≡ action_in word.now }
{
    if word == b"terms".as_slice() {
        Some(Action::Terms)
    } else if word == b"verify_email".as_slice() {
        Some(Action::VerifyEmail)
    } else if word == b"update_password".as_slice() {
        Some(Action::UpdatePassword)
    } else if word == b"configure_otp".as_slice() {
        Some(Action::ConfigureOtp)
    } else if word == b"recovery_codes".as_slice() {
        Some(Action::RecoveryCodes)
    } else {
        None
    }
}

/// The place of an action in the order in which actions are asked.
fn place_of(action: Action) -> u8
    ensures { result ≡ place_of action }
{
    match action {
        Action::Terms => 0,
        Action::VerifyEmail => 1,
        Action::UpdatePassword => 2,
        Action::ConfigureOtp => 3,
        Action::RecoveryCodes => 4,
    }
}

/// A level and its moment, where both are in their ranges.
fn reached(level: Option<u64>, moment: Option<u64>) -> Option<ReachedLevel>
    requires level { IfSome level (λ n. n ≤ 1000) }
    ensures { result ≡ reached level moment }
{
    match (level, moment) {
        (Some(level), Some(moment)) if level >= 1 && moment <= LAST_MOMENT => Some(ReachedLevel {
            level: level as u32,
            moment: Moment::clamped(moment),
        }),
        _ => None,
    }
}

/// A level and its moment, with the character `@` at this place between them.
fn level_at(text: &[u8], at: usize) -> Option<ReachedLevel>
    requires { at < length text.now }
    ensures { result ≡ level_at text.now at }
{
    let (level, rest) = text.split_at(at);
    let (_, moment) = rest.split_at(1);
    reached(number(level, 1_000), number(moment, LAST_MOMENT))
}

/// The place of the first `@`.
fn at_sign(text: &[u8]) -> Option<usize>
    ensures place { result ≡ position (λ b. b == 64) text.now }
    ensures within { IfSome result (λ at. at < length text.now) }
{
    text.iter().position(|b| *b == b'@')
}

fn level_in(text: &[u8]) -> Option<ReachedLevel>
    ensures { result ≡ level_in text.now }
{
    match at_sign(text) {
        Some(at) => level_at(text, at),
        None => None,
    }
}

impl ListItem for Name {
    ghost use Rattle.keeper_columns.specs.Words.{role_in, is_role_before};

    ghost item = { role_in };

    ghost before = { is_role_before };

    fn read(alloc: Global, text: &[u8]) -> Result<Option<Name>, Memory> {
        read_name(alloc, text)
    }

    fn is_before(&self, other: &Name) -> bool {
        self.as_bytes().cmp(other.as_bytes()) == Ordering::Less
    }
}

impl ListItem for Action {
    ghost use Rattle.keeper_columns.specs.Words.{action_in, is_action_before};

    ghost item = { action_in };

    ghost before = { is_action_before };

    fn read(_alloc: Global, text: &[u8]) -> Result<Option<Action>, Memory> {
        Ok(action_in(text))
    }

    fn is_before(&self, other: &Action) -> bool {
        place_of(*self) < place_of(*other)
    }
}

impl ListItem for u64 {
    ghost use Rattle.keeper_columns.specs.Words.{step_in, is_step_before};

    ghost item = { step_in };

    ghost before = { is_step_before };

    fn read(_alloc: Global, text: &[u8]) -> Result<Option<u64>, Memory> {
        Ok(number(text, u64::MAX))
    }

    fn is_before(&self, other: &u64) -> bool {
        *self < *other
    }
}

impl ListItem for ReachedLevel {
    ghost use Rattle.keeper_columns.specs.Words.{level_in, is_level_before};

    ghost item = { level_in };

    ghost before = { is_level_before };

    fn read(_alloc: Global, text: &[u8]) -> Result<Option<ReachedLevel>, Memory> {
        Ok(level_in(text))
    }

    fn is_before(&self, other: &ReachedLevel) -> bool {
        self.level < other.level
    }
}

/// A user's roles: names in byte order, without repeats.
pub fn read_roles(alloc: Global, text: &[u8]) -> Result<Option<Sequence<Name>>, Memory>
    ensures ok { IfOk result (λ roles. roles ≡ roles_in text.now) }
{
    read_list(alloc, text)
}

/// The actions that are required of a user, in the order in which they are asked.
pub fn read_actions(alloc: Global, text: &[u8]) -> Result<Option<Sequence<Action>>, Memory>
    ensures ok { IfOk result (λ actions. actions ≡ actions_in text.now) }
{
    read_list(alloc, text)
}

/// The levels that a session reached, ascending.
pub fn read_levels(alloc: Global, text: &[u8]) -> Result<Option<Sequence<ReachedLevel>>, Memory>
    ensures ok { IfOk result (λ levels. levels ≡ levels_in text.now) }
{
    read_list(alloc, text)
}

/// The last step of a list.
pub fn newest_step(steps: &[u64]) -> Option<u64>
    ensures step { result ≡ newest_step steps.now }
{
    steps.last().copied()
}

/// Whether no step is more than four before this one.
fn are_near(steps: &[u64], newest: u64) -> bool
    ensures { result ≡ are_near steps.now newest }
{
    steps.iter().all(|step| newest.saturating_sub(*step) <= 4)
}

fn are_steps_near(steps: &[u64]) -> bool
    ensures { result ≡ are_steps_near steps.now (newest_step steps.now) }
{
    match newest_step(steps) {
        Some(newest) => are_near(steps, newest),
        None => true,
    }
}

/// The spent steps of 30 s (RFC 6238), ascending, of which none is more than four before the
/// newest.
pub fn read_steps(alloc: Global, text: &[u8]) -> Result<Option<Sequence<u64>>, Memory>
    ensures ok { IfOk result (λ steps. steps ≡ steps_in text.now) }
{
    match read_list::<u64>(alloc, text)? {
        Some(steps) if are_steps_near(steps.as_slice()) => Ok(Some(steps)),
        _ => Ok(None),
    }
}
