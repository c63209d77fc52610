use crate::{AccountView, LevelView, configured, fresh, role_true};
use flow_tree::{Body, Cond, Exec, Kind, Requirement};
use login_base::{Sequence, read_name};
use std::alloc::Global;
use std::test::Fail;

/// A level, its age in seconds, a moment, and whether it is fresh then, where level 1 was reached
/// at 2,000 and level 2 at 59,000.
const AGES: [(u32, u64, u64, bool); 9] = [
    (1, 36_000, 60_000, true),
    (2, 300, 60_000, true),
    (2, 300, 358_999, true),
    (2, 300, 359_000, false),
    (2, 300, 58_000, true),
    (2, 1, 59_999, true),
    (2, 1, 60_000, false),
    (2, 0, 59_000, false),
    (3, 300, 60_000, false),
];

#[test]
fn a_level_ages_out_at_its_end(rt: HostRuntime) -> Result<(), Fail> {
    let mut levels = Sequence::new(rt.alloc());
    levels.push((1, 2_000))?;
    levels.push((2, 59_000))?;
    let view = LevelView { levels };
    for (level, age, now, want) in AGES {
        assert_eq!(rt;
            fresh(Some(&view), level, age, now),
            want,
            "level {level} at {now}"
        );
        assert!(rt; !fresh(None, level, age, now));
    }
    assert!(rt; fresh(Some(&view), 2, u64::MAX, u64::MAX));
    Ok(())
}

fn account(alloc: Global, password: bool, otp: bool) -> AccountView {
    AccountView {
        roles: Sequence::new(alloc),
        password,
        otp,
        recovery: false,
    }
}

#[test]
fn a_role_is_false_for_an_unknown_user(rt: HostRuntime) -> Result<(), Fail> {
    let alloc = rt.alloc();
    let staff = read_name(alloc, b"staff")?.ok_or("a name")?;
    let guest = read_name(alloc, b"guest")?.ok_or("a name")?;
    let mut view = account(alloc, true, false);
    view.roles
        .push(read_name(alloc, b"staff")?.ok_or("a name")?)?;
    assert!(rt; role_true(Some(&view), &staff, false));
    assert!(rt; !role_true(Some(&view), &staff, true));
    assert!(rt; !role_true(Some(&view), &guest, false));
    assert!(rt; role_true(Some(&view), &guest, true));
    assert!(rt; !role_true(None, &guest, false));
    assert!(rt; !role_true(None, &guest, true));
    Ok(())
}

fn step(alloc: Global, requirement: Requirement, body: Body) -> Result<Exec, Fail> {
    let id = read_name(alloc, b"step")?.ok_or("a name")?;
    Ok(Exec {
        id,
        requirement,
        body,
    })
}

#[test]
fn an_alternative_is_not_asked_beside_a_required_one(rt: HostRuntime) -> Result<(), Fail> {
    let alloc = rt.alloc();
    let condition = step(alloc, Requirement::Required, Body::Cond(Cond::Configured))?;
    let otp = step(alloc, Requirement::Alternative, Body::Auth(Kind::Otp))?;
    let form = step(alloc, Requirement::Required, Body::Auth(Kind::Form))?;
    let execs = [condition, otp, form];
    assert!(rt; configured(Some(&account(alloc, true, false)), &execs));
    assert!(rt; !configured(Some(&account(alloc, false, true)), &execs));
    assert!(rt; configured(Some(&account(alloc, false, true)), &execs[..2]));
    assert!(rt; !configured(Some(&account(alloc, true, false)), &execs[..2]));
    assert!(rt; !configured(Some(&account(alloc, true, true)), &execs[..1]));
    assert!(rt; !configured(None, &execs));
    Ok(())
}
