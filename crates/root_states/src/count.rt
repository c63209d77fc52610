ghost use Rattle.std.specs.Prelude.{◌≡◌, ◌<◌, [], ◌∷◌, nat_lt, length, slice_get, Contains};
ghost use Rattle.std.specs.Prelude.{Some, IsTrue, IfOk, OnOk};
ghost use Rattle.facts.specs.declared.fact.Fact.{Fact};
ghost use Rattle.facts.specs.Roots.{tabs_known, root_is_known, roots_known};
ghost use Rattle.root_states.specs.About.{is_of_roots};
ghost use Rattle.root_states.specs.Count.{root_made, key_of, keys_noted, Gains};

use crate::opening::opens_known;
use crate::root::root_state;
use fact_scans::{FoldAbout, fold_by};
use facts::{Chronicle, Fact, Facts, Fold, Subject};
use login_base::{Memory, Moment, RootKey, Steps};
use std::alloc::Global;
use std::collections::BTreeSet;
use std::sync::ledger::Ledger;

/// The most tabs that may be known.
const MOST_TABS: usize = 262_144;

/// The most roots that may be known.
const MOST_ROOTS: usize = 65_536;

/// Carries how many tabs are known at a moment.
#[derive(Clone, Copy, Debug)]
struct KnownTabs {
    moment: Moment,
}

impl Fold for KnownTabs {
    ghost use Rattle.root_states.specs.Carrying.{tabs_after};

    type Carried = usize;

    ghost carry = { λ t. tabs_after t.moment };

    fn after(&self, carried: &mut usize, fact: &Fact) {
        if opens_known(fact, self.moment) {
            *carried = (*carried).saturating_add(1).min(MOST_TABS);
        }
    }
}

impl FoldAbout for KnownTabs {
    ghost use Rattle.facts.specs.Subjects.{is_opening};
    ghost use Rattle.root_states.specs.About.{of_tabs};

    ghost about = { λ _. is_opening };

    fn is_about(&self, subject: Subject) -> bool {
        subject.is_opening()
    }

    ghost only = { λ t. of_tabs t.moment };
}

/// Whether one more tab may be opened at the moment `now`. A list of fewer facts isn't read.
pub fn has_tab_room<L: Ledger>(facts: &Facts<'_>, now: Moment, steps: &mut Steps<L>) -> bool
    ensures value { result ≡ nat_lt (tabs_known now facts.now) 262144 }
{
    let (chronicle, more) = facts.parts();
    if chronicle.len().saturating_add(more.len()) < MOST_TABS {
        return true;
    }
    fold_by(facts, &KnownTabs { moment: now }, 0, steps) < MOST_TABS
}

/// The root that a fact can make known: by a tab that is known, or by a session.
fn root_made(fact: &Fact, now: Moment) -> Option<RootKey>
    ensures { result ≡ root_made now fact.now }
{
    match fact {
        Fact::Opened { root, .. } if opens_known(fact, now) => Some(*root),
        Fact::Session { root, .. } => *root,
        _ => None,
    }
}

/// Carries how many facts can make a root known at a moment.
#[derive(Clone, Copy, Debug)]
struct RootsMade {
    moment: Moment,
}

impl Fold for RootsMade {
    ghost use Rattle.root_states.specs.Carrying.{roots_after};

    type Carried = usize;

    ghost carry = { λ r. roots_after r.moment };

    fn after(&self, carried: &mut usize, fact: &Fact) {
        if root_made(fact, self.moment).is_some() {
            *carried = (*carried).saturating_add(1).min(MOST_ROOTS);
        }
    }
}

/// Whether a fact of this subject can make a root known.
fn is_of_roots(subject: Subject) -> bool
    ensures { result ≡ is_of_roots subject }
{
    matches!(subject, Subject::Opening { .. } | Subject::Root { .. })
}

impl FoldAbout for RootsMade {
    ghost use Rattle.root_states.specs.About.{is_of_roots, of_roots};

    ghost about = { λ _. is_of_roots };

    fn is_about(&self, subject: Subject) -> bool {
        is_of_roots(subject)
    }

    ghost only = { λ r. of_roots r.moment };
}

/// Adds a root.
#[tactic(auto, using(crate::proofs::SetLemmas::gains_one))]
fn add(seen: &mut BTreeSet<[u64; 3]>, root: RootKey) -> Result<(), Memory>
    ensures { OnOk result (Gains seen.old (key_of root ∷ []) seen.new) }
{
    seen.insert([root.0.serial, root.0.high, root.0.low])?;
    Ok(())
}

/// Whether the root that a fact can make known is known: a tab that is known tells so by itself.
#[tactic(auto, using(crate::proofs::NamedLemmas::made_known))]
fn is_known<L: Ledger>(
    facts: &Facts<'_>,
    fact: &Fact,
    root: RootKey,
    now: Moment,
    steps: &mut Steps<L>,
) -> bool
    requires among { Contains facts.now fact.now }
    requires made { root_made now fact.now ≡ Some root }
    ensures { result ≡ root_is_known now facts.now root }
{
    if opens_known(fact, now) {
        return true;
    }
    root_state(facts, root, now, steps).is_known(now)
}

/// Adds the root that a fact makes known.
#[tactic(auto, using(crate::proofs::SetLemmas::noted_none, crate::proofs::SetLemmas::noted_unknown, crate::proofs::SetLemmas::noted_known))]
fn note<L: Ledger>(
    seen: &mut BTreeSet<[u64; 3]>,
    facts: &Facts<'_>,
    fact: &Fact,
    now: Moment,
    steps: &mut Steps<L>,
) -> Result<(), Memory>
    requires among { Contains facts.now fact.now }
    ensures { OnOk result (Gains seen.old (keys_noted now facts.now (fact.now ∷ [])) seen.new) }
{
    let Some(root) = root_made(fact, now) else {
        return Ok(());
    };
    if !is_known(facts, fact, root, now, steps) {
        return Ok(());
    }
    add(seen, root)
}

/// Adds the root that the fact at a place makes known. It is read only where it can make one known.
#[tactic(auto, using(crate::proofs::SetLemmas::unread_at))]
fn note_at<L: Ledger>(
    seen: &mut BTreeSet<[u64; 3]>,
    facts: &Facts<'_>,
    chronicle: &Chronicle,
    index: usize,
    now: Moment,
    steps: &mut Steps<L>,
) -> Result<(), Memory>
    requires within { index < length chronicle.now.list }
    requires among { (fact : Fact) → slice_get chronicle.now.list index ≡ Some fact → Contains facts.now fact }
    ensures { OnOk result ((fact : Fact) → slice_get chronicle.now.list index ≡ Some fact →
        Gains seen.old (keys_noted now facts.now (fact ∷ [])) seen.new) }
{
    if !is_of_roots(chronicle.subject(index)) {
        return Ok(());
    }
    let fact = chronicle.at(index, steps);
    note(seen, facts, fact, now, steps)
}

/// Adds the roots that the facts of a chronicle make known.
fn note_kept<L: Ledger>(
    seen: &mut BTreeSet<[u64; 3]>,
    facts: &Facts<'_>,
    chronicle: &Chronicle,
    now: Moment,
    steps: &mut Steps<L>,
) -> Result<(), Memory>
    requires among { (fact : Fact) → Contains chronicle.now.list fact → Contains facts.now fact }
    ensures { OnOk result (Gains seen.old (keys_noted now facts.now chronicle.now.list) seen.new) }
{
    for i in 0..chronicle.len() {
        note_at(seen, facts, chronicle, i, now, steps)?;
    }
    Ok(())
}

/// Adds the roots that these facts make known.
fn note_more<L: Ledger>(
    seen: &mut BTreeSet<[u64; 3]>,
    facts: &Facts<'_>,
    more: &[Fact],
    now: Moment,
    steps: &mut Steps<L>,
) -> Result<(), Memory>
    requires among { (fact : Fact) → Contains more.now fact → Contains facts.now fact }
    ensures { OnOk result (Gains seen.old (keys_noted now facts.now more.now) seen.new) }
{
    for fact in more {
        note(seen, facts, fact, now, steps)?;
    }
    Ok(())
}

/// How many roots are known.
pub(crate) fn root_count<L: Ledger>(
    alloc: Global,
    facts: &Facts<'_>,
    now: Moment,
    steps: &mut Steps<L>,
) -> Result<usize, Memory>
    ensures { IfOk result (λ count. count ≡ roots_known now facts.now) }
{
    let (chronicle, more) = facts.parts();
    let mut seen = BTreeSet::new(alloc);
    note_kept(&mut seen, facts, chronicle, now, steps)?;
    note_more(&mut seen, facts, more, now, steps)?;
    Ok(seen.len())
}

/// Whether so few facts can make a root known that they needn't be told apart. A shorter list isn't
/// read.
fn has_few_roots<L: Ledger>(facts: &Facts<'_>, now: Moment, steps: &mut Steps<L>) -> bool
    ensures { IsTrue result → roots_known now facts.now < 65536 }
{
    let (chronicle, more) = facts.parts();
    if chronicle.len().saturating_add(more.len()) < MOST_ROOTS {
        return true;
    }
    fold_by(facts, &RootsMade { moment: now }, 0, steps) < MOST_ROOTS
}

/// Whether there is room for one more root at the moment `now`. Where few facts can make a root
/// known, it takes no memory.
pub fn has_root_room<L: Ledger>(
    alloc: Global,
    facts: &Facts<'_>,
    now: Moment,
    steps: &mut Steps<L>,
) -> Result<bool, Memory>
    ensures ok { IfOk result (λ room. room ≡ nat_lt (roots_known now facts.now) 65536) }
{
    if has_few_roots(facts, now, steps) {
        return Ok(true);
    }
    Ok(root_count(alloc, facts, now, steps)? < MOST_ROOTS)
}
