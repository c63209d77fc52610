ghost use Rattle.std.specs.Prelude.{◌≡◌, true, IfOk};
ghost use Rattle.toml.specs.View.{view};
ghost use Rattle.realm_data.specs.Secrets.{is_otp_key};
ghost use Rattle.realm_fields.specs.Reading.{word_in};
ghost use Rattle.realm_fields.specs.Words.{is_salt, salt_of, otp_of};
ghost use Rattle.realm_print.specs.Printed.{IsReadAs, IsPlain};

use crate::lists::print_list;
use crate::tables::put;
use crate::values::Prints;
use login_base::Memory;
use one_time::base32_text;
use realm_data::{OtpSecret, PasswordHash, RecoveryDigests};
use std::alloc::Global;
use toml::{Table, Value};

impl Prints for [u8; 32] {
    ghost deep = { 0 };

    fn print(&self, alloc: Global) -> Result<Value, Memory> {
        Ok(Value::String(hex::encode(alloc, self.as_slice())?))
    }
}

/// A key of one-time codes, in base32.
fn print_key(alloc: Global, key: &[u8]) -> Result<Value, Memory>
    requires { is_otp_key key.now ≡ true }
    ensures read { IfOk result (λ v. IsReadAs (word_in otp_of) (view v) key.now) }
    ensures plain { IfOk result (λ v. IsPlain 0 (view v)) }
{
    match String::from_utf8(base32_text(alloc, key)?) {
        Ok(text) => Ok(Value::String(text)),
        Err(_) => unreachable!(),
    }
}

impl Prints for OtpSecret {
    ghost deep = { 0 };

    fn print(&self, alloc: Global) -> Result<Value, Memory> {
        print_key(alloc, self.key())
    }
}

/// The salt of a password.
fn print_salt(alloc: Global, salt: &[u8]) -> Result<Value, Memory>
    requires { is_salt salt.now ≡ true }
    ensures read { IfOk result (λ v. IsReadAs (word_in salt_of) (view v) salt.now) }
    ensures plain { IfOk result (λ v. IsPlain 0 (view v)) }
{
    Ok(Value::String(hex::encode(alloc, salt)?))
}

impl Prints for PasswordHash {
    ghost deep = { 1 };

    fn print(&self, alloc: Global) -> Result<Value, Memory> {
        let salt = print_salt(alloc, self.salt())?;
        let digest = self.digest().print(alloc)?;
        let mut table = Table::new(alloc);
        put(alloc, &mut table, "salt", salt)?;
        put(
            alloc,
            &mut table,
            "iterations",
            Value::from(self.iterations()),
        )?;
        put(alloc, &mut table, "digest", digest)?;
        Ok(Value::Table(table))
    }
}

impl Prints for RecoveryDigests {
    ghost deep = { 1 };

    fn print(&self, alloc: Global) -> Result<Value, Memory> {
        print_list(alloc, self.digests())
    }
}
