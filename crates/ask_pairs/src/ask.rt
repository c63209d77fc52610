ghost use Rattle.std.specs.Prelude.{◌≡◌, IfOk};
ghost use Rattle.ask_pairs.specs.Asks.{ask_of_pairs, keyed_ask};
ghost use Rattle.ask_pairs.specs.Pairs.{pairs_of};

use crate::admin::admin_ask;
use crate::browser_verb::browser_verb;
use crate::browsers::browser_ask;
use crate::keys::root_given;
use crate::pairs::{Pair, pairs_of, value_of};
use crate::place::{Place, bad};
use asks::Ask;
use login_base::Memory;
use std::alloc::Global;

/// The ask of a verb and its pairs, or `Ask::Bad` at the first place that is missing, doubled or
/// outside its grammar. `local` is true for scripts and the command line: an administrator's ask then
/// needs no key. Else it brings one in the pair `key`, and can't put a realm.
pub fn ask_of(alloc: Global, verb: &[u8], pairs: &[Pair], local: bool) -> Result<Ask, Memory>
    ensures ask { IfOk result (λ ask. ask ≡ ask_of_pairs verb.now pairs.now local) }
{
    match browser_verb(verb) {
        Some(known) => browser_ask(alloc, known, root_given(pairs), pairs),
        None => admin_ask(alloc, local, verb, pairs),
    }
}

/// The same of form-urlencoded pairs (URL Standard, section 5.1).
pub fn ask_of_pairs(alloc: Global, verb: &[u8], pairs: &[u8], local: bool) -> Result<Ask, Memory>
    ensures ask { IfOk result (λ ask. ask ≡ ask_of_pairs verb.now (pairs_of pairs.now) local) }
{
    let pairs = pairs_of(alloc, pairs)?;
    ask_of(alloc, verb, pairs.as_slice(), local)
}

/// The ask of an administrator with a key, whose verb is the pair `verb`.
pub fn keyed_ask(alloc: Global, pairs: &[Pair]) -> Result<Ask, Memory>
    ensures ask { IfOk result (λ ask. ask ≡ keyed_ask pairs.now) }
{
    match value_of(pairs, b"verb") {
        Some(verb) => admin_ask(alloc, false, verb, pairs),
        None => bad(alloc, Place::Verb),
    }
}
