//! What opens an account that failures or an administrator closed: nothing but a login that
//! completes, an enable or an unlock.
ghost use Rattle.std.specs.Prelude.{◌≡◌, ◌++◌, true};
ghost use Rattle.account_states.specs.Standings.{standing_of};
ghost use Rattle.account_states.specs.States.{is_closed};
ghost use Rattle.hall_laws.specs.Closing.{OpenNothing};
ghost use Rattle.lockout.specs.Standing.{is_locked};
ghost use Rattle.login_hall.specs.Due.{due_ask};
ghost use Rattle.login_hall.specs.Growth.{chronicle_of};
ghost use Rattle.login_hall.specs.Legal.{LegalAfter};
ghost use Rattle.std.specs.List.{flat_map};

use facts::{Ask, Entry, Fact, Finding};
use hall_answers::Setting;
use login_base::UserId;

/// A closed account stays closed, whatever is asked, unless what is added opens it.
pub fn closed_stays_closed(setting: &Setting<'_>, ask: &Ask, finding: &Finding, user: UserId)
    requires closed { is_closed user setting.now.facts ≡ true }
    requires unopened { OpenNothing user (due_ask setting.now ask.now finding.now).added }
    ensures closed { is_closed user (setting.now.facts ++ (due_ask setting.now ask.now finding.now).added) ≡ true }
{}

/// What the failures of a locked account have come to stays as it is, whatever is asked, unless what
/// is added opens it: no failure is counted, and the lock ends when it would have ended.
pub fn locked_stays_locked(setting: &Setting<'_>, ask: &Ask, finding: &Finding, user: UserId)
    requires locked { is_locked (standing_of user setting.now.facts) setting.now.moment ≡ true }
    requires unopened { OpenNothing user (due_ask setting.now ask.now finding.now).added }
    ensures same { standing_of user (setting.now.facts ++ (due_ask setting.now ask.now finding.now).added)
        ≡ standing_of user setting.now.facts }
{}

/// Through any entries of a legal history a closed account stays closed, unless one of them opens it.
pub fn closed_through_a_history(base: &[Fact], front: &[Entry], more: &[Entry], user: UserId)
    requires legal { LegalAfter base.now front.now more.now }
    requires unopened { OpenNothing user (flat_map (λ entry. entry.added) more.now) }
    requires closed { is_closed user (chronicle_of base.now front.now) ≡ true }
    ensures closed { is_closed user (chronicle_of base.now (front.now ++ more.now)) ≡ true }
{}
