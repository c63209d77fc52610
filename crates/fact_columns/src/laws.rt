//! What is written is read as what it was written of.
ghost use Rattle.std.specs.Prelude.{◌≡◌, ◌<◌, ◌≤◌, ◌^◌, true, length, decimal, Some};
ghost use Rattle.std.specs.List.{list_all};
ghost use Rattle.decimal_text.specs.Numbers.{number};
ghost use Rattle.login_base.specs.Names.{is_name};
ghost use Rattle.realm_data.specs.PasswordHash.{is_hash};
ghost use Rattle.realm_data.specs.Secrets.{are_recovery_digests};
ghost use Rattle.keeper_columns.specs.Bodies.{password_in, are_digests, digest_count};
ghost use Rattle.keeper_columns.specs.Ranges.{natural};
ghost use Rattle.keeper_columns.specs.Words.{secret_kind, token_kind, roles_in, actions_in, steps_in, levels_in, is_role_before, is_action_before, is_level_before};
ghost use Rattle.fact_columns.specs.Bodies.{password_body, recovery_body};
ghost use Rattle.fact_columns.specs.Lists.{in_order};
ghost use Rattle.fact_columns.specs.Numbers.{column};
ghost use Rattle.fact_columns.specs.Words.{secret_word, token_word, roles_text, actions_text, kept_steps, steps_text, levels_text, is_step, is_reached};

use asks::TokenAction;
use conditions::SecretKind;
use keeper_columns::ReachedLevel;
use login_base::Name;
use realm_data::{Action, PasswordHash, RecoveryDigests};

/// The word of a kind is read as the kind.
pub fn kinds_are_read_back(secret: SecretKind, token: TokenAction)
    ensures secret { secret_kind (secret_word secret) ≡ Some secret }
    ensures token { token_kind (token_word token) ≡ Some token }
{}

/// A number below 2^63 is held as it is.
pub fn numbers_are_read_back(number: u64)
    requires range { number < 2 ^ 63 }
    ensures value { natural (column number) ≡ number }
{}

/// Roles are read in their order, without repeats.
pub fn roles_are_read_back(roles: &[Name])
    requires names { list_all is_name roles.now ≡ true }
    ensures roles { roles_in (roles_text roles.now) ≡ Some (in_order is_role_before roles.now) }
{}

/// Actions are read in their order, without repeats.
pub fn actions_are_read_back(actions: &[Action])
    ensures actions { actions_in (actions_text actions.now) ≡ Some (in_order is_action_before actions.now) }
{}

/// Of spent steps those are read that are near the newest.
pub fn steps_are_read_back(steps: &[u64])
    requires range { list_all is_step steps.now ≡ true }
    ensures steps { steps_in (steps_text steps.now) ≡ Some (kept_steps steps.now) }
{}

/// Levels are read ascending, each as it was reached last.
pub fn levels_are_read_back(levels: &[ReachedLevel])
    requires range { list_all is_reached levels.now ≡ true }
    ensures levels { levels_in (levels_text levels.now) ≡ Some (in_order is_level_before levels.now) }
{}

/// A password's hash is read as it is.
pub fn passwords_are_read_back(hash: &PasswordHash)
    requires range { is_hash hash.now ≡ true }
    ensures hash { password_in (password_body hash.now) ≡ Some hash.now }
{}

/// The digests of recovery codes are as many as the codes, of which each number is read.
pub fn recovery_is_kept(digests: &RecoveryDigests, spent: u64)
    requires range { are_recovery_digests digests.now ≡ true }
    requires spent { spent ≤ length digests.now }
    ensures body { are_digests (recovery_body digests.now) ≡ true }
    ensures count { digest_count (recovery_body digests.now) ≡ length digests.now }
    ensures spent { number (digest_count (recovery_body digests.now)) (decimal spent) ≡ Some spent }
{}
