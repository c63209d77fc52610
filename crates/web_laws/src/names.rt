ghost use Rattle.std.specs.Prelude.{◌≡◌, IsTrue};
ghost use Rattle.std.specs.List.{list_all};
ghost use Rattle.web_laws.specs.Names.{need_has_name, next_has_names, has_names};

use asks::{Need, Next, What};

/// What is asked has names, as its type says.
fn know_needs(asked: &[Need])
    ensures names { IsTrue (list_all need_has_name asked.now) }
{
    for need in asked {
        let _name = need.id.as_bytes();
    }
}

fn know_next(next: &Next)
    ensures names { IsTrue (next_has_names next.now) }
{
    match next {
        Next::Form { code: _, asked } => know_needs(asked.as_slice()),
        Next::Action { .. } => {}
    }
}

/// What a reply says has names, as its type says.
pub fn know_names(what: &What)
    ensures names { IsTrue (has_names what.now) }
{
    match what {
        What::BadForm { at } => {
            let _name = at.as_bytes();
        }
        What::OtherUser { tab, session } => {
            let _tab = tab.name.as_bytes();
            let _session = session.name.as_bytes();
        }
        What::Denied { execution } | What::NotConfigured { execution } => {
            let _name = execution.as_bytes();
        }
        What::Done {
            session: _,
            user,
            level: _,
        }
        | What::ActionDone { user, kind: _ } => {
            let _name = user.name.as_bytes();
        }
        What::Form { code: _, asked } => know_needs(asked.as_slice()),
        What::BadCredentials { next }
        | What::BadCode { next }
        | What::CodeSpent { step: _, next } => know_next(next),
        _ => {}
    }
}
