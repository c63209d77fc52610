use crate::{levels_text, password_body, roles_text, steps_text};
use keeper_columns::ReachedLevel;
use login_base::{Moment, Sequence, read_name};
use realm_data::PasswordHash;
use std::test::Fail;

#[test]
fn lists_are_written_in_their_order(rt: HostRuntime) -> Result<(), Fail> {
    let alloc = rt.alloc();
    let mut roles = Sequence::new(alloc);
    for role in [b"staff".as_slice(), b"guest", b"staff"] {
        if let Some(name) = read_name(alloc, role)? {
            roles.push(name)?;
        }
    }
    assert_eq!(rt;
        roles_text(alloc, roles.as_slice())?.as_str(),
        "guest,staff"
    );
    let levels = [(2, 59_000), (1, 2_000), (2, 60_000)].map(|(level, millis)| ReachedLevel {
        level,
        moment: Moment::clamped(millis),
    });
    assert_eq!(rt; levels_text(alloc, &levels)?.as_str(), "1@2000,2@60000");
    assert_eq!(rt; steps_text(alloc, &[9, 3, 7, 5, 4])?.as_str(), "5,7,9");
    Ok(())
}

#[test]
fn passwords_are_kept_in_bytes(rt: HostRuntime) -> Result<(), Fail> {
    let alloc = rt.alloc();
    if let Some(hash) = PasswordHash::new(b"salt", 258, [7; 32]) {
        let body = password_body(alloc, &hash)?;
        let front = [0, 0, 1, 2, 4, b's', b'a', b'l', b't', 7];
        assert_eq!(rt; body.len(), 41);
        assert!(rt; body.as_slice().starts_with(&front));
    }
    Ok(())
}
