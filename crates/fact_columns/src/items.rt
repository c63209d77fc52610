ghost use Rattle.std.specs.Prelude.{◌≡◌, ◌++◌, ℕ, List, IfOk, OnOk, decimal};
ghost use Rattle.std.specs.String.{string_bytes};
ghost use Rattle.fact_columns.specs.Words.{action_word};

use crate::names::name_str;
use keeper_columns::{ListItem, ReachedLevel};
use login_base::{Duplicate, Memory, Name};
use realm_data::Action;
use std::alloc::Global;

/// What a text can list, as it is written.
pub trait Item: ListItem {
    ghost text: { Self → List ℕ };

    /// Adds its text.
    fn add_to(&self, alloc: Global, out: &mut String) -> Result<(), Memory>
        ensures text { OnOk result (string_bytes out.new ≡ string_bytes out.old ++ text self.now) };

    /// A copy, which equals it.
    fn copy(&self, alloc: Global) -> Result<Self, Memory>
        ensures ok { IfOk result (λ copy. copy ≡ self.now) };
}

fn action_word(action: Action) -> &'static str
    ensures { result.now ≡ action_word action }
{
    match action {
        Action::Terms => "terms",
        Action::VerifyEmail => "verify_email",
        Action::UpdatePassword => "update_password",
        Action::ConfigureOtp => "configure_otp",
        Action::RecoveryCodes => "recovery_codes",
    }
}

/// Adds a number in decimal digits.
fn add_number(alloc: Global, out: &mut String, number: u64) -> Result<(), Memory>
    ensures { OnOk result (string_bytes out.new ≡ string_bytes out.old ++ decimal number) }
{
    let text = number.to_string(alloc)?;
    out.push_str(text.as_str())?;
    Ok(())
}

impl Item for Name {
    ghost use Rattle.fact_columns.specs.Words.{role_text};

    ghost text = { role_text };

    fn add_to(&self, _alloc: Global, out: &mut String) -> Result<(), Memory> {
        out.push_str(name_str(self))?;
        Ok(())
    }

    fn copy(&self, alloc: Global) -> Result<Name, Memory> {
        self.duplicate(alloc)
    }
}

impl Item for Action {
    ghost use Rattle.fact_columns.specs.Words.{action_word};

    ghost text = { action_word };

    fn add_to(&self, _alloc: Global, out: &mut String) -> Result<(), Memory> {
        out.push_str(action_word(*self))?;
        Ok(())
    }

    fn copy(&self, _alloc: Global) -> Result<Action, Memory> {
        Ok(*self)
    }
}

impl Item for u64 {
    ghost text = { decimal };

    fn add_to(&self, alloc: Global, out: &mut String) -> Result<(), Memory> {
        add_number(alloc, out, *self)
    }

    fn copy(&self, _alloc: Global) -> Result<u64, Memory> {
        Ok(*self)
    }
}

impl Item for ReachedLevel {
    ghost use Rattle.fact_columns.specs.Words.{level_text};

    ghost text = { level_text };

    fn add_to(&self, alloc: Global, out: &mut String) -> Result<(), Memory> {
        add_number(alloc, out, u64::from(self.level))?;
        out.push_str("@")?;
        add_number(alloc, out, self.moment.millis())
    }

    fn copy(&self, _alloc: Global) -> Result<ReachedLevel, Memory> {
        Ok(*self)
    }
}
