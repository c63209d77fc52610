//! What a fact makes of the session of a root.
ghost use Rattle.std.specs.Prelude.{◌≡◌};
ghost use Rattle.facts.specs.Tabs.{is_root, seen_at, ended_by, session_after};

use facts::{Fact, RootSession};
use login_base::{Moment, RootKey, SessionId, same_id};

/// A use of a session at a moment moves its last use.
pub fn seen_at(own: Option<RootSession>, session: &SessionId, moment: Moment) -> Option<RootSession>
    ensures value { result ≡ seen_at session.now moment own }
{
    match own {
        Some(own) if same_id(&own.session.0, &session.0) => Some(RootSession {
            seen: moment,
            ..own
        }),
        _ => own,
    }
}

/// The end of a session takes it away.
pub fn ended_by(own: Option<RootSession>, session: &SessionId) -> Option<RootSession>
    ensures value { result ≡ ended_by session.now own }
{
    match own {
        Some(own) if same_id(&own.session.0, &session.0) => None,
        _ => own,
    }
}

fn is_root(root: RootKey, of: &Option<RootKey>) -> bool
    ensures { result ≡ is_root root of.now }
{
    match of {
        Some(of) => same_id(&of.0, &root.0),
        None => false,
    }
}

/// The root's session after a fact.
pub fn session_after(root: RootKey, own: Option<RootSession>, fact: &Fact) -> Option<RootSession>
    ensures value { result ≡ session_after root own fact.now }
{
    match fact {
        Fact::Session {
            session,
            root: of,
            user,
            moment,
            idle,
            max,
        } if is_root(root, of) => Some(RootSession {
            session: *session,
            user: *user,
            opened: *moment,
            seen: *moment,
            idle: *idle,
            max: *max,
        }),
        Fact::Seen { session, moment } => seen_at(own, session, *moment),
        Fact::SessionEnd { session } => ended_by(own, session),
        _ => own,
    }
}
