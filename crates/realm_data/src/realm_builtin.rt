ghost use Rattle.std.specs.Prelude.{◌≡◌, IfOk};
ghost use Rattle.realm_data.specs.RealmBuiltin.{builtin_flow, builtin_lockout, builtin_clients, builtin_realm};

use crate::realm_parts::{Client, OtpRule, RealmParts, SessionLimits};
use flow_tree::{Body, Exec, Kind, Requirement, Tree};
use lockout::{Mode, Policy};
use login_base::{Memory, Name, Sequence};
use sqlite_items::Items;
use std::alloc::Global;

#[tactic(auto, using(crate::proofs::RealmLemmas::builtin_is_tree))]
fn builtin_flow(alloc: Global) -> Result<Tree, Memory>
    ensures { IfOk result (λ flow. flow ≡ builtin_flow) }
{
    let mut execs = Items::new(alloc);
    execs.push(Exec {
        id: Name::known(alloc, b"form")?,
        requirement: Requirement::Required,
        body: Body::Auth(Kind::Form),
    })?;
    match Tree::make(alloc, execs) {
        Ok(flow) => Ok(flow),
        Err(_) => unreachable!(),
    }
}

fn builtin_lockout() -> Policy
    ensures { result ≡ builtin_lockout }
{
    Policy {
        mode: Mode::Temporary,
        max_failures: 3,
        wait_increment: 60,
        max_wait: 900,
        failure_reset: 43_200,
        quick_check: 1_000,
        quick_wait: 60,
    }
}

fn builtin_clients(alloc: Global) -> Result<Sequence<Client>, Memory>
    ensures { IfOk result (λ clients. clients ≡ builtin_clients) }
{
    let mut clients = Sequence::new(alloc);
    clients.push(Client {
        id: Name::known(alloc, b"app")?,
        level: 0,
    })?;
    Ok(clients)
}

/// The parts of the built-in realm.
#[tactic(auto, unfolding(crate::specs::RealmBuiltin::builtin_realm))]
pub(crate) fn builtin_parts(alloc: Global) -> Result<RealmParts, Memory>
    ensures { IfOk result (λ parts. parts ≡ builtin_realm) }
{
    Ok(RealmParts {
        name: Name::known(alloc, b"builtin")?,
        admin_key: [0; 32],
        flow: builtin_flow(alloc)?,
        session: SessionLimits {
            idle: 1_800,
            max: 36_000,
            tab: 1_800,
        },
        iterations: 100,
        otp: OtpRule {
            digits: 6,
            window: 1,
        },
        recovery_count: 8,
        lockout: builtin_lockout(),
        acr: Sequence::new(alloc),
        clients: builtin_clients(alloc)?,
        users: Sequence::new(alloc),
    })
}
