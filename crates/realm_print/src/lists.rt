ghost use Rattle.std.specs.Prelude.{◌≡◌, ◌+◌, ◌≤◌, ℕ, true, length, IfOk, option_map};
ghost use Rattle.std.specs.List.{list_all};
ghost use Rattle.toml.specs.View.{view};
ghost use Rattle.realm_fields.specs.Reading.{list_in, few_in};
ghost use Rattle.realm_print.specs.Printed.{IsReadAs, AreFewAs, AreListedAs, IsPlain, IfPlain};

use crate::values::Prints;
use login_base::Memory;
use std::alloc::Global;
use toml::Value;

/// An array of what is printed of each item.
pub fn print_list<T: Prints>(alloc: Global, items: &[T]) -> Result<Value, Memory>
    requires { list_all T.fits items.now ≡ true }
    ensures read { IfOk result (λ v. IsReadAs (list_in T.meant) (view v) items.now) }
    ensures few { IfOk result (λ v. AreFewAs T.meant (view v) items.now) }
    ensures plain { IfOk result (λ v. IsPlain (T.deep + 1) (view v)) }
{
    let mut values = Vec::new(alloc);
    'items: for item in items {
        values.push(item.print(alloc)?)?;
    }
    Ok(Value::Array(values))
}

/// Such an array where there are items.
pub fn print_any<T: Prints>(alloc: Global, items: &[T]) -> Result<Option<Value>, Memory>
    requires { list_all T.fits items.now ≡ true }
    ensures read { IfOk result (λ o. AreListedAs (list_in T.meant) (option_map (λ v. view v) o) items.now) }
    ensures few { IfOk result (λ o. (most : ℕ) → length items.now ≤ most
        → AreListedAs (few_in 0 most T.meant) (option_map (λ v. view v) o) items.now) }
    ensures plain { IfOk result (λ o. IfPlain (T.deep + 1) (option_map (λ v. view v) o)) }
{
    if items.is_empty() {
        return Ok(None);
    }
    Ok(Some(print_list(alloc, items)?))
}
