ghost use Rattle.std.specs.Prelude.{◌≡◌, option_map};
ghost use Rattle.toml.specs.View.{view};
ghost use Rattle.realm_print.specs.Printed.{IsFlag, IfPlain};

use crate::lists::print_any;
use crate::tables::{put, put_some};
use crate::values::{Prints, print_some};
use login_base::Memory;
use realm_data::{Client, RealmUser};
use std::alloc::Global;
use toml::{Table, Value};

/// A flag, where it isn't as usual.
pub fn unusual(flag: bool, usual: bool) -> Option<Value>
    ensures read { IsFlag usual (option_map (λ v. view v) result) flag }
    ensures plain { IfPlain 0 (option_map (λ v. view v) result) }
{
    if flag == usual {
        None
    } else {
        Some(Value::Boolean(flag))
    }
}

impl Prints for Client {
    ghost deep = { 1 };

    fn print(&self, alloc: Global) -> Result<Value, Memory> {
        let id = self.id.print(alloc)?;
        let mut table = Table::new(alloc);
        put(alloc, &mut table, "id", id)?;
        put(alloc, &mut table, "level", Value::from(self.level))?;
        Ok(Value::Table(table))
    }
}

impl Prints for RealmUser {
    ghost deep = { 2 };

    fn print(&self, alloc: Global) -> Result<Value, Memory> {
        let name = self.name.print(alloc)?;
        let roles = print_any(alloc, self.roles.as_slice())?;
        let password = print_some(alloc, &self.password)?;
        let otp = print_some(alloc, &self.otp)?;
        let recovery = print_some(alloc, &self.recovery)?;
        let actions = print_any(alloc, self.actions.as_slice())?;
        let mut table = Table::new(alloc);
        put(alloc, &mut table, "name", name)?;
        put_some(alloc, &mut table, "roles", roles)?;
        put_some(alloc, &mut table, "enabled", unusual(self.enabled, true))?;
        put_some(alloc, &mut table, "password", password)?;
        put_some(alloc, &mut table, "otp", otp)?;
        put_some(alloc, &mut table, "recovery", recovery)?;
        put_some(alloc, &mut table, "actions", actions)?;
        Ok(Value::Table(table))
    }
}
