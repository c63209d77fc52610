//! Lists of facts that answer alike, with the same facts behind both.
ghost use Rattle.std.specs.Prelude.{◌++◌};
ghost use Rattle.hall_questions.specs.Questions.{AnswerAlike};

use facts::Fact;

/// Lists of facts that answer alike do so with the same facts behind both.
pub fn alike_with_more(one: &[Fact], other: &[Fact], more: &[Fact])
    requires alike { AnswerAlike one.now other.now }
    ensures alike { AnswerAlike (one.now ++ more.now) (other.now ++ more.now) }
{}
