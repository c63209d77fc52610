//! The texts that a reply brings into its page.
ghost use Rattle.std.specs.Prelude.{IsTrue};
ghost use Rattle.login_hall.specs.Due.{due};
ghost use Rattle.web_laws.specs.Plain.{has_plain_texts};

use crate::told::know_told;
use asks::Solved;
use facts::Fact;
use login_base::Draws;

/// Whatever happened before, the reply that an ask is due carries texts of printable ASCII alone,
/// without the characters that HTML escapes: what it tells an administrator, and what it offers.
pub fn due_texts_are_plain(facts: &[Fact], solved: &Solved, moment: u64, draws: Draws)
    ensures texts { IsTrue (has_plain_texts (due facts.now solved.now moment draws).reply.what) }
{
    know_told(solved.ask());
}
