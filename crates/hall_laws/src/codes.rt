//! No code that was shown is above the tab counter: it holds of a base of one mark, and whatever is
//! added keeps it so.
ghost use Rattle.std.specs.Prelude.{◌++◌, ◌∷◌, [], IsTrue};
ghost use Rattle.hall_laws.specs.Repeats.{HasCodesCounted};
ghost use Rattle.login_hall.specs.Due.{due_ask};
ghost use Rattle.login_hall.specs.Start.{is_mark, IsStart};

use facts::{Ask, Fact, Finding, Realm};
use hall_answers::Setting;

pub fn mark_counts_codes(mark: &Fact)
    requires mark { IsTrue (is_mark mark.now) }
    ensures counted { HasCodesCounted (mark.now ∷ []) }
{}

pub fn start_counts_codes(base: &[Fact], realm: &Option<Realm>, added: &[Fact])
    requires start { IsStart base.now realm.now added.now }
    requires counted { HasCodesCounted base.now }
    ensures counted { HasCodesCounted (base.now ++ added.now) }
{}

pub fn ask_counts_codes(setting: &Setting<'_>, ask: &Ask, finding: &Finding)
    requires counted { HasCodesCounted setting.now.facts }
    ensures counted { HasCodesCounted (setting.now.facts ++ (due_ask setting.now ask.now finding.now).added) }
{}
