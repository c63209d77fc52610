ghost use Rattle.std.specs.Prelude.{◌≡◌, IfOk};
ghost use Rattle.login_base.specs.IdText.{same_id};
ghost use Rattle.facts.specs.Actions.{is_pending};
ghost use Rattle.fact_rows.specs.Found.{used_at, session_kept, token_kept, holder_of, pending_of};

use crate::holder::Holder;
use crate::kept_token::KeptToken;
use fact_scans::{FoldAbout, Pick, fold_by, last_by};
use facts::{Action, Fact, Facts, Fold, RootSession, Subject};
use login_base::{Memory, Moment, SessionId, Steps, TokenKey, UserId, same_id};
use std::alloc::Global;
use std::sync::ledger::Ledger;

/// Carries the session of an id: it begins, is used, and ends.
#[derive(Clone, Copy, Debug)]
struct SessionOf {
    id: SessionId,
}

impl SessionOf {
    fn is_own(&self, session: &SessionId) -> bool
        ensures { result ≡ same_id session.now.0 self.now.id.0 }
    {
        same_id(&session.0, &self.id.0)
    }
}

/// A use moves the session's last use.
fn used_at(own: Option<RootSession>, moment: Moment) -> Option<RootSession>
    ensures { result ≡ used_at moment own }
{
    match own {
        Some(own) => Some(RootSession {
            seen: moment,
            ..own
        }),
        None => None,
    }
}

impl Fold for SessionOf {
    ghost use Rattle.fact_rows.specs.Found.{kept_after};

    type Carried = Option<RootSession>;

    ghost carry = { λ s. kept_after s.id };

    fn after(&self, carried: &mut Option<RootSession>, fact: &Fact) {
        match fact {
            Fact::Session {
                session,
                user,
                moment,
                idle,
                max,
                ..
            } if self.is_own(session) => {
                *carried = Some(RootSession {
                    session: *session,
                    user: *user,
                    opened: *moment,
                    seen: *moment,
                    idle: *idle,
                    max: *max,
                });
            }
            Fact::Seen { session, moment } if self.is_own(session) => {
                *carried = used_at(*carried, *moment);
            }
            Fact::SessionEnd { session } if self.is_own(session) => *carried = None,
            _ => {}
        }
    }
}

impl FoldAbout for SessionOf {
    ghost use Rattle.facts.specs.Subjects.{is_of_session};
    ghost use Rattle.fact_rows.specs.About.{of_session};

    ghost about = { λ s. is_of_session s.id };

    fn is_about(&self, subject: Subject) -> bool {
        subject.is_of_session(self.id)
    }

    ghost only = { λ s. of_session s.id };
}

/// The session of an id, unless it has ended.
#[tactic(auto, unfolding(crate::specs::Found::session_kept))]
pub fn session_kept<L: Ledger>(
    facts: &Facts<'_>,
    id: SessionId,
    steps: &mut Steps<L>,
) -> Option<RootSession>
    ensures value { result ≡ session_kept id facts.now }
{
    fold_by(facts, &SessionOf { id }, None, steps)
}

/// Picks the token that is made with a key.
#[derive(Clone, Copy, Debug)]
struct TokenMadeAs {
    key: TokenKey,
}

impl Pick for TokenMadeAs {
    ghost use Rattle.facts.specs.Subjects.{is_of_token};
    ghost use Rattle.fact_rows.specs.Found.{token_made_as};
    ghost use Rattle.fact_rows.specs.About.{of_making};

    type Out = KeptToken;

    ghost pick = { λ t. token_made_as t.key };

    ghost about = { λ t. is_of_token t.key };

    fn of(&self, fact: &Fact) -> Option<KeptToken> {
        match fact {
            Fact::TokenMade {
                key,
                user,
                kind,
                expiry,
            } if same_id(&key.0, &self.key.0) => Some(KeptToken {
                user: *user,
                kind: *kind,
                expiry: *expiry,
            }),
            _ => None,
        }
    }

    fn is_about(&self, subject: Subject) -> bool {
        subject.is_of_token(self.key)
    }

    ghost only = { λ t. of_making t.key };
}

/// The token of a key.
#[tactic(auto, unfolding(crate::specs::Found::token_kept))]
pub fn token_kept<L: Ledger>(
    facts: &Facts<'_>,
    key: TokenKey,
    steps: &mut Steps<L>,
) -> Option<KeptToken>
    ensures value { result ≡ token_kept key facts.now }
{
    last_by(facts, &TokenMadeAs { key }, steps)
}

/// Picks whose secret is set with a serial.
#[derive(Clone, Copy, Debug)]
struct SetAs {
    serial: u64,
}

impl Pick for SetAs {
    ghost use Rattle.facts.specs.Subjects.{is_account};
    ghost use Rattle.fact_rows.specs.Found.{set_as};
    ghost use Rattle.fact_rows.specs.About.{of_setting};

    type Out = Holder;

    ghost pick = { λ s. set_as s.serial };

    ghost about = { λ _. is_account };

    fn of(&self, fact: &Fact) -> Option<Holder> {
        match fact {
            Fact::SecretSet {
                user,
                kind,
                serial,
                ..
            } if *serial == self.serial => Some(Holder {
                user: *user,
                kind: *kind,
            }),
            _ => None,
        }
    }

    fn is_about(&self, subject: Subject) -> bool {
        subject.is_account()
    }

    ghost only = { λ s. of_setting s.serial };
}

/// Whose secret of which kind was set with a serial last.
#[tactic(auto, unfolding(crate::specs::Found::holder_of))]
pub fn holder_of<L: Ledger>(facts: &Facts<'_>, serial: u64, steps: &mut Steps<L>) -> Option<Holder>
    ensures value { result ≡ holder_of serial facts.now }
{
    last_by(facts, &SetAs { serial }, steps)
}

/// Picks whether an action is required of a user, or done.
#[derive(Clone, Copy, Debug)]
struct RequiredBy {
    user: UserId,
    action: Action,
}

impl Pick for RequiredBy {
    ghost use Rattle.facts.specs.Actions.{required_by};
    ghost use Rattle.facts.specs.Subjects.{is_of_user};
    ghost use Rattle.fact_rows.specs.About.{of_requiring};

    type Out = bool;

    ghost pick = { λ r. required_by r.user r.action };

    ghost about = { λ r. is_of_user r.user };

    fn of(&self, fact: &Fact) -> Option<bool> {
        match fact {
            Fact::ActionSet { user, kind } if user.0 == self.user.0 && *kind == self.action => {
                Some(true)
            }
            Fact::ActionDone { user, kind } if user.0 == self.user.0 && *kind == self.action => {
                Some(false)
            }
            _ => None,
        }
    }

    fn is_about(&self, subject: Subject) -> bool {
        subject.is_of_user(self.user)
    }

    ghost only = { λ r. of_requiring r.user r.action };
}

/// Whether an action is pending for a user.
#[tactic(auto, unfolding(facts::specs::Actions::is_pending))]
fn is_pending<L: Ledger>(
    facts: &Facts<'_>,
    user: UserId,
    action: Action,
    steps: &mut Steps<L>,
) -> bool
    ensures { result ≡ is_pending user facts.now action }
{
    last_by(facts, &RequiredBy { user, action }, steps).unwrap_or(false)
}

/// The actions that are pending for a user, in the order in which they are asked.
pub fn pending_of<L: Ledger>(
    alloc: Global,
    facts: &Facts<'_>,
    user: UserId,
    steps: &mut Steps<L>,
) -> Result<Vec<Action>, Memory>
    ensures ok { IfOk result (λ pending. pending.items ≡ pending_of user facts.now) }
{
    let mut pending = Vec::new(alloc);
    for action in [
        Action::Terms,
        Action::VerifyEmail,
        Action::UpdatePassword,
        Action::ConfigureOtp,
        Action::RecoveryCodes,
    ] {
        if is_pending(facts, user, action, steps) {
            pending.push(action)?;
        }
    }
    Ok(pending)
}
