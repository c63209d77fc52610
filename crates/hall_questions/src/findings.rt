//! What the check of a password finds over lists of facts that answer alike.
ghost use Rattle.std.specs.Prelude.{◌≡◌};
ghost use Rattle.hall_questions.specs.Questions.{AnswerAlike};
ghost use Rattle.login_hall.specs.Found.{found};

use facts::{Ask, Fact};
use login_base::{Draws, Moment};

/// The check of an ask's password finds the same over lists of facts that answer alike.
pub fn found_alike(one: &[Fact], other: &[Fact], moment: Moment, ask: &Ask, draws: &Draws)
    requires alike { AnswerAlike one.now other.now }
    ensures finding { found one.now moment ask.now draws.now ≡ found other.now moment ask.now draws.now }
{}
