//! A tab completes once after an opening.
ghost use Rattle.std.specs.Prelude.{◌++◌};
ghost use Rattle.hall_laws.specs.CompletedOnce.{AreCompletedOnce};
ghost use Rattle.login_hall.specs.Due.{due_ask};
ghost use Rattle.login_hall.specs.Growth.{chronicle_of};
ghost use Rattle.login_hall.specs.Legal.{LegalAfter};

use facts::{Ask, Entry, Fact, Finding};
use hall_answers::Setting;

/// Where no tab completed twice after an opening, none does after an ask.
pub fn tabs_complete_once(setting: &Setting<'_>, ask: &Ask, finding: &Finding)
    requires once { AreCompletedOnce setting.now.facts }
    ensures once { AreCompletedOnce (setting.now.facts ++ (due_ask setting.now ask.now finding.now).added) }
{}

/// Through any entries of a legal history no tab completes twice after an opening.
pub fn tabs_complete_once_in_a_history(base: &[Fact], front: &[Entry], more: &[Entry])
    requires legal { LegalAfter base.now front.now more.now }
    requires once { AreCompletedOnce (chronicle_of base.now front.now) }
    ensures once { AreCompletedOnce (chronicle_of base.now (front.now ++ more.now)) }
{}
