ghost use Rattle.std.specs.Prelude.{◌≡◌, ℕ, true, IfOk};
ghost use Rattle.toml.specs.View.{view, table_view};
ghost use Rattle.flow_tree.specs.declared.exec.Body.TheVariants as bodies;
ghost use Rattle.flow_tree.specs.declared.exec.Cond.TheVariants as conds;
ghost use Rattle.flow_tree.specs.Ranges.{is_in_range};
ghost use Rattle.realm_file.specs.Execs.{execs_in};
ghost use Rattle.realm_print.specs.Flows.{IsExec, IsHead, IsFlowOf, IsRanged, AreRanged, IsFlowPlain, IsExecPlain};
ghost use Rattle.realm_print.specs.Printed.{IsReadAs, IsPlain, ArePlain};

use crate::tables::{put, put_some};
use crate::users::unusual;
use crate::values::number;
use crate::words::{kind_word, name_text, requirement_word};
use flow_tree::{Body, Cond, Exec, Kind};
use login_base::{Memory, Name};
use realm_fields::ExecKind;
use std::alloc::Global;
use toml::{Table, Value};

/// A table with the keys that every execution has.
fn head_table(alloc: Global, exec: &Exec, kind: ExecKind) -> Result<Table, Memory>
    ensures read { IfOk result (λ t. IsHead exec.now kind (table_view t)) }
    ensures plain { IfOk result (λ t. ArePlain 0 (table_view t)) }
{
    let id = Value::string(alloc, name_text(&exec.id))?;
    let requirement = Value::string(alloc, requirement_word(exec.requirement))?;
    let kind = Value::string(alloc, kind_word(kind))?;
    let mut table = Table::new(alloc);
    put(alloc, &mut table, "id", id)?;
    put(alloc, &mut table, "require", requirement)?;
    put(alloc, &mut table, "kind", kind)?;
    Ok(table)
}

fn leaf_table(alloc: Global, exec: &Exec, kind: Kind) -> Result<Table, Memory>
    requires { exec.now.body ≡ bodies.Auth kind }
    ensures read { IfOk result (λ t. IsExec exec.now (table_view t)) }
    ensures plain { IfOk result (λ t. ArePlain 0 (table_view t)) }
{
    head_table(alloc, exec, ExecKind::Auth(kind))
}

fn configured_table(alloc: Global, exec: &Exec) -> Result<Table, Memory>
    requires { exec.now.body ≡ bodies.Cond conds.Configured }
    ensures read { IfOk result (λ t. IsExec exec.now (table_view t)) }
    ensures plain { IfOk result (λ t. ArePlain 0 (table_view t)) }
{
    head_table(alloc, exec, ExecKind::Configured)
}

fn role_table(alloc: Global, exec: &Exec, role: &Name, negate: bool) -> Result<Table, Memory>
    requires { exec.now.body ≡ bodies.Cond (conds.Role role.now negate) }
    ensures read { IfOk result (λ t. IsExec exec.now (table_view t)) }
    ensures plain { IfOk result (λ t. ArePlain 0 (table_view t)) }
{
    let role = Value::string(alloc, name_text(role))?;
    let mut table = head_table(alloc, exec, ExecKind::Role)?;
    put(alloc, &mut table, "role", role)?;
    put_some(alloc, &mut table, "negate", unusual(negate, false))?;
    Ok(table)
}

fn level_table(alloc: Global, exec: &Exec, level: u32, age: u64) -> Result<Table, Memory>
    requires body { exec.now.body ≡ bodies.Cond (conds.Level level age) }
    requires range { is_in_range (conds.Level level age) ≡ true }
    ensures read { IfOk result (λ t. IsExec exec.now (table_view t)) }
    ensures plain { IfOk result (λ t. ArePlain 0 (table_view t)) }
{
    let mut table = head_table(alloc, exec, ExecKind::Level)?;
    put(alloc, &mut table, "level", Value::from(level))?;
    put(alloc, &mut table, "age", number(age))?;
    Ok(table)
}

fn cond_table(alloc: Global, exec: &Exec, cond: &Cond) -> Result<Table, Memory>
    requires body { exec.now.body ≡ bodies.Cond cond.now }
    requires range { is_in_range cond.now ≡ true }
    ensures read { IfOk result (λ t. IsExec exec.now (table_view t)) }
    ensures plain { IfOk result (λ t. ArePlain 0 (table_view t)) }
{
    match cond {
        Cond::Role { role, negate } => role_table(alloc, exec, role, *negate),
        Cond::Configured => configured_table(alloc, exec),
        Cond::Level { level, age } => level_table(alloc, exec, *level, *age),
    }
}

/// The table of a subflow with these steps.
fn flow_table(alloc: Global, exec: &Exec, steps: Value) -> Result<Table, Memory>
    requires { IsFlowOf exec.now (view steps) }
    ensures read { IfOk result (λ t. IsExec exec.now (table_view t)) }
    ensures plain { IfOk result (λ t. (most : ℕ) → IsPlain most (view steps) → ArePlain most (table_view t)) }
{
    let mut table = head_table(alloc, exec, ExecKind::Flow)?;
    put(alloc, &mut table, "steps", steps)?;
    Ok(table)
}

#[cycle(printing)]
fn print_exec(alloc: Global, exec: &Exec) -> Result<Table, Memory>
    requires { IsRanged exec.now }
    ensures read { IfOk result (λ t. IsExec exec.now (table_view t)) }
    ensures plain { IfOk result (λ t. IsExecPlain exec.now (table_view t)) }
{
    match &exec.body {
        Body::Auth(kind) => leaf_table(alloc, exec, *kind),
        Body::Cond(cond) => cond_table(alloc, exec, cond),
        Body::Sub(execs) => {
            let steps = print_execs(alloc, execs.as_slice())?;
            flow_table(alloc, exec, steps)
        }
    }
}

/// The executions of a flow as an array.
#[cycle(printing)]
pub fn print_execs(alloc: Global, execs: &[Exec]) -> Result<Value, Memory>
    requires { AreRanged execs.now }
    ensures read { IfOk result (λ v. IsReadAs execs_in (view v) execs.now) }
    ensures plain { IfOk result (λ v. IsFlowPlain execs.now (view v)) }
{
    let mut values = Vec::new(alloc);
    for exec in execs {
        values.push(Value::Table(print_exec(alloc, exec)?))?;
    }
    Ok(Value::Array(values))
}
