ghost use Rattle.std.specs.Prelude.{◌≡◌, ◌<◌, ◌^◌};
ghost use Rattle.hall_answers.specs.HasSerials.{HasSerials};
ghost use Rattle.hall_answers.specs.Ids.{id_at, root_key, tab_key, code_at, session_at, token_at, next_code, next_session, next_token};

use fact_scans::{last_stored_serial, last_tab_serial};
use facts::Facts;
use login_base::{Code, Draws, Id, RootKey, SessionId, TabKey, TokenKey};

/// The id of a serial, with the draws at two places.
fn id_at(serial: u64, place: usize, draws: &Draws) -> Id
    requires { place < 9 }
    ensures { result ≡ id_at serial place draws.now }
{
    Id {
        serial,
        high: draws.0[place],
        low: draws.0[place + 1],
    }
}

pub fn root_key(serial: u64, draws: &Draws) -> RootKey
    ensures value { result ≡ root_key serial draws.now }
{
    RootKey(id_at(serial, 0, draws))
}

pub fn tab_key(serial: u64, draws: &Draws) -> TabKey
    ensures value { result ≡ tab_key serial draws.now }
{
    TabKey(id_at(serial, 2, draws))
}

fn code_at(serial: u64, draws: &Draws) -> Code
    ensures { result ≡ code_at serial draws.now }
{
    Code(id_at(serial, 4, draws))
}

fn session_at(serial: u64, draws: &Draws) -> SessionId
    ensures { result ≡ session_at serial draws.now }
{
    SessionId(id_at(serial, 6, draws))
}

fn token_at(serial: u64, draws: &Draws) -> TokenKey
    ensures { result ≡ token_at serial draws.now }
{
    TokenKey(id_at(serial, 6, draws))
}

/// A new code.
pub fn next_code(facts: &Facts<'_>, draws: &Draws) -> Code
    requires serials { HasSerials facts.now (2 ^ 63) }
    ensures value { result ≡ next_code facts.now draws.now }
{
    code_at(last_tab_serial(facts) + 1, draws)
}

/// The id of a new session.
pub fn next_session(facts: &Facts<'_>, draws: &Draws) -> SessionId
    requires serials { HasSerials facts.now (2 ^ 63) }
    ensures value { result ≡ next_session facts.now draws.now }
{
    session_at(last_stored_serial(facts) + 1, draws)
}

/// The key of a new token.
pub fn next_token(facts: &Facts<'_>, draws: &Draws) -> TokenKey
    requires serials { HasSerials facts.now (2 ^ 63) }
    ensures value { result ≡ next_token facts.now draws.now }
{
    token_at(last_stored_serial(facts) + 1, draws)
}
