ghost use Rattle.std.specs.Prelude.{◌≡◌, ◌<◌, ◌^◌, true, pos, IfOk, IsTrue, option_map};
ghost use Rattle.std.specs.Option.{option_map_or};
ghost use Rattle.toml.specs.Data.{integer};
ghost use Rattle.toml.specs.View.{view};
ghost use Rattle.realm_print.specs.Printed.{IsReadAs, IsFoundAs, IsPlain, IfPlain};

use login_base::Memory;
use realm_fields::Reads;
use std::alloc::Global;
use toml::Value;

/// What can be printed as a TOML value, which is read as it.
pub trait Prints: Reads {
    ghost use Rattle.std.specs.Prelude.{ℕ};

    /// How deep the value nests.
    ghost deep: { ℕ };

    fn print(&self, alloc: Global) -> Result<Value, Memory>
        requires { IsTrue (Self.fits self.now) }
        ensures read { IfOk result (λ v. IsReadAs Self.meant (view v) self.now) }
        ensures plain { IfOk result (λ v. IsPlain deep (view v)) };
}

/// What is printed of what may be there.
pub fn print_some<T: Prints>(alloc: Global, part: &Option<T>) -> Result<Option<Value>, Memory>
    requires { option_map_or T.fits part.now true ≡ true }
    ensures read { IfOk result (λ o. IsFoundAs T.meant (option_map (λ v. view v) o) part.now) }
    ensures plain { IfOk result (λ o. IfPlain T.deep (option_map (λ v. view v) o)) }
{
    match part {
        Some(value) => Ok(Some(value.print(alloc)?)),
        None => Ok(None),
    }
}

/// A number.
pub fn number(number: u64) -> Value
    requires { number < 2 ^ 63 }
    ensures { view result ≡ integer (pos number) }
{
    Value::Integer(number as i64)
}
