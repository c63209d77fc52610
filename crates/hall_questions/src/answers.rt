//! What an ask is due over lists of facts that answer alike.
ghost use Rattle.std.specs.Prelude.{◌≡◌};
ghost use Rattle.hall_answers.specs.Setting.{setting_at};
ghost use Rattle.hall_questions.specs.Questions.{AnswerAlike};
ghost use Rattle.login_hall.specs.Due.{due_ask};

use facts::{Ask, Fact, Finding};
use login_base::{Draws, Moment};

/// Lists of facts that answer alike are due the same reply, and the same facts are added to them,
/// whatever is asked.
pub fn due_alike(
    one: &[Fact],
    other: &[Fact],
    moment: Moment,
    draws: &Draws,
    ask: &Ask,
    finding: &Finding,
)
    requires alike { AnswerAlike one.now other.now }
    ensures answer { due_ask (setting_at one.now moment draws.now) ask.now finding.now
        ≡ due_ask (setting_at other.now moment draws.now) ask.now finding.now }
{}
