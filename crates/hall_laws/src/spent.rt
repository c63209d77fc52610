//! Each one-time code, each recovery code and each token is used once.
ghost use Rattle.std.specs.Prelude.{◌++◌};
ghost use Rattle.hall_laws.specs.SpentOnce.{AreSpentOnce};
ghost use Rattle.login_hall.specs.Due.{due_ask};
ghost use Rattle.login_hall.specs.Growth.{chronicle_of};
ghost use Rattle.login_hall.specs.Legal.{LegalAfter};

use facts::{Ask, Entry, Fact, Finding};
use hall_answers::Setting;

/// Where no code and no token was spent twice, an ask spends none that was spent, and none twice.
pub fn codes_are_spent_once(setting: &Setting<'_>, ask: &Ask, finding: &Finding)
    requires once { AreSpentOnce setting.now.facts }
    ensures once { AreSpentOnce (setting.now.facts ++ (due_ask setting.now ask.now finding.now).added) }
{}

/// Through any entries of a legal history nothing is spent twice: a time step by one secret, a number
/// by one list, or a token.
pub fn codes_are_spent_once_in_a_history(base: &[Fact], front: &[Entry], more: &[Entry])
    requires legal { LegalAfter base.now front.now more.now }
    requires once { AreSpentOnce (chronicle_of base.now front.now) }
    ensures once { AreSpentOnce (chronicle_of base.now (front.now ++ more.now)) }
{}
