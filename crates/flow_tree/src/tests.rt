use crate::{Body, Cond, Exec, Kind, Leaf, Requirement, Tree};
use login_base::{Memory, Name, read_name};
use sqlite_items::Items;
use std::alloc::Global;
use std::test::Fail;

fn name(alloc: Global, id: &str) -> Result<Name, Memory> {
    match read_name(alloc, id.as_bytes())? {
        Some(name) => Ok(name),
        None => Err(Memory),
    }
}

fn step(alloc: Global, id: &str, requirement: Requirement, body: Body) -> Result<Exec, Memory> {
    Ok(Exec {
        id: name(alloc, id)?,
        requirement,
        body,
    })
}

fn required(alloc: Global, id: &str, kind: Kind) -> Result<Exec, Memory> {
    step(alloc, id, Requirement::Required, Body::Auth(kind))
}

fn pair(alloc: Global, first: Exec, second: Exec) -> Result<Items<Exec>, Memory> {
    let mut execs = Items::new(alloc);
    execs.push(first)?;
    execs.push(second)?;
    Ok(execs)
}

fn tree_of(alloc: Global, execs: Items<Exec>) -> Result<Tree, Fail> {
    match Tree::make(alloc, execs) {
        Ok(tree) => Ok(tree),
        Err(_) => Err(Fail::from("a tree")),
    }
}

/// A condition and an empty subflow.
fn leafless(alloc: Global) -> Result<Tree, Fail> {
    let condition = step(
        alloc,
        "set",
        Requirement::Required,
        Body::Cond(Cond::Configured),
    )?;
    let empty = Body::Sub(Items::new(alloc));
    let subflow = step(alloc, "empty", Requirement::Required, empty)?;
    tree_of(alloc, pair(alloc, condition, subflow)?)
}

/// A disabled subflow with a leaf and a subflow of its own, between two leaves.
fn nested(alloc: Global) -> Result<Tree, Fail> {
    let otp = required(alloc, "otp", Kind::Otp)?;
    let recovery = step(
        alloc,
        "rec",
        Requirement::Disabled,
        Body::Auth(Kind::Recovery),
    )?;
    let inner = Body::Sub(pair(alloc, otp, recovery)?);
    let inner = step(alloc, "inner", Requirement::Conditional, inner)?;
    let cookie = required(alloc, "cookie", Kind::Cookie)?;
    let outer = Body::Sub(pair(alloc, inner, cookie)?);
    let outer = step(alloc, "outer", Requirement::Disabled, outer)?;
    let form = required(alloc, "a-form", Kind::Form)?;
    let mut execs = pair(alloc, form, outer)?;
    execs.push(required(alloc, "z", Kind::Deny)?)?;
    tree_of(alloc, execs)
}

/// The leaves of the nested tree.
const NESTED: [(&str, Kind); 5] = [
    ("a-form", Kind::Form),
    ("otp", Kind::Otp),
    ("rec", Kind::Recovery),
    ("cookie", Kind::Cookie),
    ("z", Kind::Deny),
];

fn are(leaves: &[Leaf], want: &[(&'static str, Kind)]) -> bool {
    leaves.len() == want.len()
        && leaves.iter().zip(want).all(|(leaf, (id, kind))| leaf.id.as_bytes() == id.as_bytes()
            && leaf.kind == *kind)
}

/// Whether the tree's leaves are these.
fn has_leaves(tree: &Tree, want: &[(&'static str, Kind)]) -> Result<bool, Memory> {
    Ok(are(tree.leaves()?.as_slice(), want))
}

#[test]
fn leaves_stand_in_document_order(rt: HostRuntime) -> Result<(), Fail> {
    let alloc = rt.alloc();
    let empty = tree_of(alloc, Items::new(alloc))?;
    assert!(rt; has_leaves(&empty, &[])?);
    assert!(rt; has_leaves(&leafless(alloc)?, &[])?);
    assert!(rt; has_leaves(&nested(alloc)?, &NESTED)?);
    Ok(())
}

/// A level, its age in seconds, and whether both are in range.
const RANGES: [(u32, u64, bool); 9] = [
    (0, 300, false),
    (1, 300, true),
    (1_000, 300, true),
    (1_001, 300, false),
    (u32::MAX, 300, false),
    (2, 0, true),
    (2, 31_536_000, true),
    (2, 31_536_001, false),
    (2, u64::MAX, false),
];

/// A level in range, then a subflow of a role and this level.
fn levelled(
    alloc: Global,
    flow: Requirement,
    own: Requirement,
    level: u32,
    age: u64,
) -> Result<Tree, Fail> {
    let role = Cond::Role {
        role: name(alloc, "staff")?,
        negate: true,
    };
    let role = step(alloc, "role", Requirement::Required, Body::Cond(role))?;
    let level = step(alloc, "level", own, Body::Cond(Cond::Level { level, age }))?;
    let inner = Body::Sub(pair(alloc, role, level)?);
    let inner = step(alloc, "inner", flow, inner)?;
    let fine = Body::Cond(Cond::Level { level: 7, age: 60 });
    let fine = step(alloc, "fine", Requirement::Required, fine)?;
    tree_of(alloc, pair(alloc, fine, inner)?)
}

#[test]
fn each_level_is_in_range(rt: HostRuntime) -> Result<(), Fail> {
    let alloc = rt.alloc();
    assert!(rt; tree_of(alloc, Items::new(alloc))?.has_levels_in_range());
    assert!(rt; leafless(alloc)?.has_levels_in_range());
    for (level, age, want) in RANGES {
        let live = levelled(
            alloc,
            Requirement::Conditional,
            Requirement::Required,
            level,
            age,
        )?;
        assert_eq!(rt; live.has_levels_in_range(), want, "level {level} of {age}");
        let idle = levelled(
            alloc,
            Requirement::Disabled,
            Requirement::Disabled,
            level,
            age,
        )?;
        assert_eq!(rt;
            idle.has_levels_in_range(),
            want,
            "idle level {level} of {age}"
        );
    }
    Ok(())
}
