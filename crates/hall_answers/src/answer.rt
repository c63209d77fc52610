ghost use Rattle.std.specs.Prelude.{◌≡◌, [], IfOk};
ghost use Rattle.hall_answers.specs.Answers.{reply_in, in_tab, only, answer_in, after_facts, with_root};

use crate::sequences::joined;
use facts::{Fact, Reply, What};
use login_base::{Memory, RootKey, Sequence, TabKey};
use std::alloc::Global;

/// What an ask is due: its reply, and the facts that it adds.
#[derive(Debug, Drop)]
pub struct Answer {
    pub reply: Reply,
    pub added: Sequence<Fact>,
}

/// A reply that names this tab, or none.
fn reply_in(tab: Option<TabKey>, what: What) -> Reply
    ensures { result ≡ reply_in tab what }
{
    Reply {
        tab,
        opened: None,
        what,
    }
}

impl Answer {
    /// A reply that adds nothing.
    pub fn only(alloc: Global, tab: Option<TabKey>, what: What) -> Answer
        ensures value { result ≡ only tab what }
    {
        Answer {
            reply: reply_in(tab, what),
            added: Sequence::new(alloc),
        }
    }

    /// A reply in a tab, with the facts that it adds.
    pub fn in_tab(tab: TabKey, what: What, added: Sequence<Fact>) -> Answer
        ensures value { result ≡ answer_in tab what added }
    {
        Answer {
            reply: reply_in(Some(tab), what),
            added,
        }
    }

    /// An answer that names no tab, with the facts that it adds.
    pub fn plain(what: What, added: Sequence<Fact>) -> Answer
        ensures value { result ≡ record { reply = reply_in None what; added = added } }
    {
        Answer {
            reply: reply_in(None, what),
            added,
        }
    }

    /// Adds these facts before those of the answer.
    pub fn after(self, facts: Sequence<Fact>) -> Result<Answer, Memory>
        ensures ok { IfOk result (λ answer. answer ≡ after_facts facts self) }
    {
        let Answer { reply, added } = self;
        let added = joined(facts, added)?;
        Ok(Answer { reply, added })
    }

    /// Carries the key of a new root.
    pub fn with_root(self, root: RootKey) -> Answer
        ensures value { result ≡ with_root root self }
    {
        let Answer { reply, added } = self;
        let Reply { tab, what, .. } = reply;
        let reply = Reply {
            tab,
            opened: Some(root),
            what,
        };
        Answer { reply, added }
    }
}
