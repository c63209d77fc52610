ghost use Rattle.std.specs.Prelude.{◌≡◌, ◌++◌, true};
ghost use Rattle.facts.specs.Realms.{has_realm};
ghost use Rattle.hall_answers.specs.Setting.{realm_now, setting_at};

use fact_scans::current_realm;
use facts::{Chronicle, Fact, Facts, Realm};
use login_base::{Draws, Moment};
use std::alloc::Global;
use std::marker::Model;

/// What an ask meets: all that happened before, the realm in force, and the ask's moment and
/// draws.
#[derive(Drop)]
pub struct Setting<'a> {
    pub alloc: Global,
    pub chronicle: &'a Chronicle,
    pub realm: &'a Realm,
    pub moment: Moment,
    pub draws: &'a Draws,
}

impl<'a> Model for Setting<'a> {
    ghost use Rattle.std.specs.Coded.{codes};
    ghost use Rattle.flow_tree.specs.contracts.exec.Exec as exec;
    ghost use Rattle.hall_answers.specs.Setting.{Setting};

    ghost Value = { Setting };

    ghost coded = { Prim.hlevel (codes, exec.the_row.coded) };

    ghost view = { λ s. record {
      facts = s.chronicle.now.list;
      realm = s.realm.now;
      moment = s.moment;
      draws = s.draws.now;
    } };
}

/// The realm in force.
#[tactic(auto, unfolding(crate::specs::Setting::realm_now))]
pub fn realm_now<'a>(chronicle: &'a Chronicle) -> &'a Realm
    requires realm { has_realm chronicle.now.list ≡ true }
    ensures realm { result.now ≡ realm_now chronicle.now.list }
{
    match current_realm(&Facts::of(chronicle)) {
        Some(realm) => realm,
        None => unreachable!(),
    }
}

impl<'a> Setting<'a> {
    /// What an ask meets at this moment.
    pub fn at(
        alloc: Global,
        chronicle: &'a Chronicle,
        moment: Moment,
        draws: &'a Draws,
    ) -> Setting<'a>
        requires realm { has_realm chronicle.now.list ≡ true }
        ensures setting { result ≡ setting_at chronicle.now.list moment draws.now }
    {
        Setting {
            alloc,
            chronicle,
            realm: realm_now(chronicle),
            moment,
            draws,
        }
    }

    /// All that happened before.
    pub fn facts(&self) -> Facts<'_>
        ensures facts { result ≡ self.now.facts }
    {
        Facts::of(self.chronicle)
    }

    /// All that happened before, and these facts behind it.
    pub fn facts_with<'b>(&'b self, more: &'b [Fact]) -> Facts<'b>
        ensures facts { result ≡ self.now.facts ++ more.now }
    {
        Facts::with(self.chronicle, more)
    }
}
