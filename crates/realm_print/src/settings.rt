ghost use Rattle.std.specs.Prelude.{◌≡◌, ℕ, true, IfOk};
ghost use Rattle.toml.specs.View.{view};
ghost use Rattle.realm_data.specs.Realm.{is_within};
ghost use Rattle.realm_fields.specs.Settings.{lone_number};
ghost use Rattle.realm_print.specs.Printed.{IsReadAs, IsPlain};

use crate::tables::put;
use crate::values::{Prints, number};
use lockout::Policy;
use login_base::Memory;
use realm_data::{OtpRule, SessionLimits};
use std::alloc::Global;
use toml::{Table, Value};

impl Prints for SessionLimits {
    ghost deep = { 1 };

    fn print(&self, alloc: Global) -> Result<Value, Memory> {
        let mut table = Table::new(alloc);
        put(alloc, &mut table, "idle", number(self.idle))?;
        put(alloc, &mut table, "max", number(self.max))?;
        put(alloc, &mut table, "tab", number(self.tab))?;
        Ok(Value::Table(table))
    }
}

impl Prints for OtpRule {
    ghost deep = { 1 };

    fn print(&self, alloc: Global) -> Result<Value, Memory> {
        let mut table = Table::new(alloc);
        put(alloc, &mut table, "digits", Value::from(self.digits))?;
        put(alloc, &mut table, "window", Value::from(self.window))?;
        Ok(Value::Table(table))
    }
}

impl Prints for Policy {
    ghost deep = { 1 };

    fn print(&self, alloc: Global) -> Result<Value, Memory> {
        let mode = self.mode.print(alloc)?;
        let mut table = Table::new(alloc);
        put(alloc, &mut table, "mode", mode)?;
        put(alloc, &mut table, "max_failures", number(self.max_failures))?;
        put(
            alloc,
            &mut table,
            "wait_increment",
            number(self.wait_increment),
        )?;
        put(alloc, &mut table, "max_wait", number(self.max_wait))?;
        put(
            alloc,
            &mut table,
            "failure_reset",
            number(self.failure_reset),
        )?;
        put(alloc, &mut table, "quick_check", number(self.quick_check))?;
        put(alloc, &mut table, "quick_wait", number(self.quick_wait))?;
        Ok(Value::Table(table))
    }
}

/// A table with one number.
pub fn lone_number(alloc: Global, key: &str, number: u32) -> Result<Value, Memory>
    ensures read { IfOk result (λ v. (least most : ℕ) → is_within least most number ≡ true
        → IsReadAs (lone_number key.now least most) (view v) number) }
    ensures plain { IfOk result (λ v. IsPlain 1 (view v)) }
{
    let mut table = Table::new(alloc);
    put(alloc, &mut table, key, Value::from(number))?;
    Ok(Value::Table(table))
}
