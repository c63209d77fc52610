ghost use Rattle.std.specs.Prelude.{◌≡◌, ◌-◌, ◌^◌, IfOk};
ghost use Rattle.hall_answers.specs.HasSerials.{HasSerials};
ghost use Rattle.root_asks.specs.NewTab.{IsNext, check_new_tab, opening_facts, new_tab_answer, due_new_tab};

use crate::level::check_level;
use crate::place::Place;
use crate::roots::{check_room, place_at, root_given};
use fact_scans::{last_version, tab_state};
use facts::{Fact, NewTab, Opening};
use hall_answers::{Answer, Refusal, Setting, refused};
use login_base::{Memory, Sequence, Steps};
use login_progress::KnownTab;
use std::sync::ledger::Ledger;
use tab_pages::{add_seen, visit_answer};

/// Where a tab is opened, and the level that it asks, or the first refusal.
#[tactic(auto, unfolding(crate::specs::NewTab::check_new_tab))]
fn check_new_tab<L: Ledger>(
    setting: &Setting<'_>,
    new: &NewTab,
    steps: &mut Steps<L>,
) -> Result<Result<Place, Refusal>, Memory>
    requires serials { HasSerials setting.now.facts (2 ^ 63 - 8) }
    ensures { IfOk result (λ place. place ≡ check_new_tab setting.now new.now) }
{
    let level = match check_level(setting.realm, new) {
        Ok(level) => level,
        Err(refusal) => return Ok(Err(refusal)),
    };
    let given = root_given(setting, &new.root, steps);
    match check_room(setting, &given, steps)? {
        Ok(()) => Ok(Ok(place_at(setting, level, &given, steps))),
        Err(refusal) => Ok(Err(refusal)),
    }
}

/// A live session of the root is seen, and the tab is opened.
fn opening_facts(setting: &Setting<'_>, place: &Place) -> Result<Sequence<Fact>, Memory>
    ensures { IfOk result (λ opened. opened ≡ opening_facts setting.now place.now) }
{
    let mut opened = Sequence::new(setting.alloc);
    add_seen(setting, &place.live, &mut opened)?;
    opened.push(Fact::Opened {
        root: place.root,
        tab: place.tab,
        version: last_version(&setting.facts()),
        level: place.level,
        life: setting.realm.tab_life(),
        moment: setting.moment,
    })?;
    Ok(opened)
}

/// What the new tab is answered.
#[tactic(auto, unfolding(crate::specs::NewTab::new_tab_answer))]
fn new_tab_answer<L: Ledger>(
    setting: &Setting<'_>,
    place: &Place,
    steps: &mut Steps<L>,
) -> Result<Answer, Memory>
    requires serials { HasSerials setting.now.facts (2 ^ 63 - 8) }
    requires next { IsNext setting.now place.now }
    ensures { IfOk result (λ answer. answer ≡ new_tab_answer setting.now place.now) }
{
    let opened = opening_facts(setting, place)?;
    let more = setting.facts_with(opened.as_slice());
    let known = KnownTab {
        root: place.root,
        tab: place.tab,
        opening: Opening {
            version: last_version(&setting.facts()),
            level: place.level,
            life: setting.realm.tab_life(),
            moment: setting.moment,
        },
        state: tab_state(&more, place.root, place.tab, steps),
    };
    let answer = visit_answer(&more, setting, &known, steps)?;
    Ok(answer.after(opened)?.with_root(place.root))
}

/// What an open is due.
#[tactic(auto, unfolding(crate::specs::NewTab::due_new_tab), using(crate::proofs::PlaceLemmas::checked_is_next))]
pub fn due_new_tab<L: Ledger>(
    setting: &Setting<'_>,
    new: &NewTab,
    steps: &mut Steps<L>,
) -> Result<Answer, Memory>
    requires serials { HasSerials setting.now.facts (2 ^ 63 - 8) }
    ensures ok { IfOk result (λ answer. answer ≡ due_new_tab setting.now new.now) }
{
    match check_new_tab(setting, new, steps)? {
        Ok(place) => new_tab_answer(setting, &place, steps),
        Err(refusal) => refused(setting.alloc, &setting.facts(), None, refusal, steps),
    }
}
