use crate::{LoginView, is_granted, levels_reached, truths_of};
use conditions::{AccountView, LevelView};
use flow_tree::{Body, Cond, Exec, Kind, Requirement, Tree};
use login_base::{Memory, Name, Sequence, read_name};
use sqlite_items::Items;
use std::alloc::Global;
use std::test::Fail;

fn name(alloc: Global, id: &str) -> Result<Name, Memory> {
    match read_name(alloc, id.as_bytes())? {
        Some(name) => Ok(name),
        None => Err(Memory),
    }
}

fn step(alloc: Global, id: &str, requirement: Requirement, body: Body) -> Result<Exec, Memory> {
    Ok(Exec {
        id: name(alloc, id)?,
        requirement,
        body,
    })
}

/// A conditional subflow of a level's condition, a leaf, and a disabled condition.
fn subflow(
    alloc: Global,
    id: &str,
    ids: [&str; 3],
    level: u32,
    kind: Kind,
) -> Result<Exec, Memory> {
    let age = 300;
    let test = Body::Cond(Cond::Level { level, age });
    let set = Body::Cond(Cond::Configured);
    let mut execs = Items::new(alloc);
    execs.push(step(alloc, ids[0], Requirement::Required, test)?)?;
    execs.push(step(alloc, ids[1], Requirement::Required, Body::Auth(kind))?)?;
    execs.push(step(alloc, ids[2], Requirement::Disabled, set)?)?;
    step(alloc, id, Requirement::Conditional, Body::Sub(execs))
}

/// A cookie, or a subflow with one for level 1 and one for level 2.
fn tree(alloc: Global) -> Result<Tree, Fail> {
    let mut inner = Items::new(alloc);
    let first = ["level-1", "form", "has-form"];
    inner.push(subflow(alloc, "one", first, 1, Kind::Form)?)?;
    let second = ["level-2", "otp", "has-otp"];
    inner.push(subflow(alloc, "two", second, 2, Kind::Otp)?)?;
    let cookie = Body::Auth(Kind::Cookie);
    let mut execs = Items::new(alloc);
    execs.push(step(alloc, "cookie", Requirement::Alternative, cookie)?)?;
    execs.push(step(alloc, "all", Requirement::Alternative, Body::Sub(inner))?)?;
    match Tree::make(alloc, execs) {
        Ok(tree) => Ok(tree),
        Err(_) => Err(Fail::from("a tree")),
    }
}

/// A view of a user with a password alone, whose live session, if any, reached level 1 at 2,000.
fn view(alloc: Global, level: u32, live: bool, counted: &str) -> Result<LoginView, Fail> {
    let account = AccountView {
        roles: Sequence::new(alloc),
        password: true,
        otp: false,
        recovery: false,
    };
    let mut reached = Sequence::new(alloc);
    reached.push((1, 2_000))?;
    let mut ids = Sequence::new(alloc);
    ids.push(name(alloc, counted)?)?;
    Ok(LoginView {
        account: Some(account),
        levels: if live {
            Some(LevelView { levels: reached })
        } else {
            None
        },
        level,
        moment: 60_000,
        counted: ids,
    })
}

/// The asked level, whether there is a live session, what counts, and then which of the tree's
/// ids are true, whether the level is granted, and which of levels 1 and 2 are recorded.
const ROWS: [(u32, bool, &str, &str, bool, &[u32]); 4] = [
    (1, false, "form", "level-1 form has-form ", true, &[1]),
    (1, true, "otp", "cookie has-form otp ", true, &[]),
    (2, true, "otp", "has-form level-2 otp ", true, &[2]),
    (2, true, "form", "form has-form level-2 ", false, &[]),
];

#[test]
fn a_cookie_is_true_up_to_the_asked_level(rt: HostRuntime) -> Result<(), Fail> {
    let alloc = rt.alloc();
    let tree = tree(alloc)?;
    for (level, live, counted, want, granted, recorded) in ROWS {
        let view = view(alloc, level, live, counted)?;
        let truths = truths_of(alloc, &view, &tree)?;
        let mut text = Vec::new(alloc);
        for id in truths.held.as_slice() {
            text.extend_from_slice(id.as_bytes())?;
            text.push(b' ')?;
        }
        assert_eq!(rt;
            text.as_slice(),
            want.as_bytes(),
            "level {level} by {counted}"
        );
        assert_eq!(rt;
            is_granted(&view, &truths, &tree),
            granted,
            "level {level} by {counted}"
        );
        let levels = levels_reached(alloc, &truths, level, &tree)?;
        assert_eq!(rt; levels.as_slice(), recorded, "level {level} by {counted}");
    }
    Ok(())
}
