ghost use Rattle.login_base.specs.Steps.{IsBlank};

use crate::{
    account_named, current_realm, first_pending, has_evidence, has_token_room, is_disabled,
    is_token_spent, last_stored_serial, last_tab_serial, last_used_moment, last_version, name_of,
    password_of, realm_of, roles_of, tab_state, tab_state_with, token_made,
};
use facts::{
    Action, Chronicle, Fact, Facts, PasswordHash, Realm, RealmParts, Secret, SecretKind,
    TokenAction,
};
use login_base::{
    Code, Duplicate, Id, Memory, Moment, Name, RootKey, Sequence, Steps, TabKey, TokenKey, UserId,
    discard, read_name,
};
use std::alloc::Global;
use std::marker::Brand;
use std::process::Abort;
use std::sync::ledger::{Blank, Ledger};
use std::test::Fail;

const ANN: UserId = UserId(4);

fn id(serial: u64) -> Id {
    Id {
        serial,
        high: 10,
        low: 11,
    }
}

fn root() -> RootKey {
    RootKey(id(3))
}

fn tab() -> TabKey {
    TabKey(id(4))
}

fn name_of_text(alloc: Global, name: &str) -> Result<Name, Memory> {
    match read_name(alloc, name.as_bytes())? {
        Some(name) => Ok(name),
        None => Err(Memory),
    }
}

/// Adds a fact to a chronicle.
fn add(chronicle: &mut Chronicle, fact: Fact) -> Result<(), Memory> {
    let facts = [fact];
    let reserved = chronicle.reserve(&facts);
    discard(facts);
    reserved?;
    chronicle.add();
    Ok(())
}

fn add_user(alloc: Global, chronicle: &mut Chronicle) -> Result<(), Memory> {
    let name = name_of_text(alloc, "ann")?;
    let roles = Sequence::new(alloc);
    add(
        chronicle,
        Fact::UserPut {
            user: ANN,
            name,
            roles,
        },
    )
}

/// Sets a secret of the user, or takes it away.
fn set(
    chronicle: &mut Chronicle,
    kind: SecretKind,
    secret: Secret,
    by: Option<TabKey>,
) -> Result<(), Memory> {
    add(
        chronicle,
        Fact::SecretSet {
            user: ANN,
            kind,
            serial: 5,
            secret,
            by,
        },
    )
}

/// A tab of a root, opened with this level.
fn open(chronicle: &mut Chronicle, root: RootKey, tab: TabKey, level: u32) -> Result<(), Memory> {
    add(
        chronicle,
        Fact::Opened {
            root,
            tab,
            version: 1,
            level,
            life: 60_000,
            moment: Moment::clamped(5),
        },
    )
}

fn show(chronicle: &mut Chronicle, serial: u64) -> Result<(), Memory> {
    add(
        chronicle,
        Fact::Rendered {
            tab: tab(),
            code: Code(id(serial)),
            action: None,
            offer: [0; 32],
        },
    )
}

/// A user with a password, and a tab that was opened and shown.
fn chronicle(alloc: Global) -> Result<Chronicle, Fail> {
    let hash = PasswordHash::new(b"salt", 100, [7; 32]).ok_or("parts in range give no hash")?;
    let mut chronicle = Chronicle::make(alloc);
    add(
        &mut chronicle,
        Fact::Mark {
            tab_serial: 2,
            stored_serial: 3,
            used_moment: Moment::clamped(4),
            stored_moment: Moment::clamped(1),
        },
    )?;
    add_user(alloc, &mut chronicle)?;
    set(
        &mut chronicle,
        SecretKind::Password,
        Secret::Password { hash },
        None,
    )?;
    open(&mut chronicle, root(), tab(), 0)?;
    show(&mut chronicle, 5)?;
    Ok(chronicle)
}

#[test]
fn what_waits_is_added_once(rt: HostRuntime) -> Result<(), Fail> {
    let mut chronicle = chronicle(rt.alloc())?;
    assert_eq!(rt; chronicle.len(), 5);
    chronicle.add();
    assert_eq!(rt; chronicle.len(), 5);
    chronicle.reserve(&[Fact::Disabled { user: ANN }])?;
    assert_eq!(rt; chronicle.len(), 5);
    chronicle.reserve(&[])?;
    chronicle.add();
    assert_eq!(rt; chronicle.len(), 5);
    Ok(())
}

/// What the facts say of the user.
fn says_of_the_user<L: Ledger, R: Abort>(
    rt: &R,
    alloc: Global,
    chronicle: &Chronicle,
    blank: Blank,
) -> Result<(), Fail>
    requires blank { IsBlank blank L.name L.parts }
{
    let mut steps = Steps::<L>::new(blank);
    let facts = Facts::of(chronicle);
    let ann = name_of_text(alloc, "ann")?;
    let bob = name_of_text(alloc, "bob")?;
    assert_eq!(rt; account_named(&facts, &ann, &mut steps), Some(ANN));
    assert_eq!(rt; account_named(&facts, &bob, &mut steps), None);
    assert!(rt; name_of(&facts, ANN, &mut steps) == Some(&ann));
    assert!(rt; name_of(&facts, UserId(5), &mut steps).is_none());
    assert!(rt; roles_of(&facts, ANN, &mut steps).map_or(false, |roles| roles.is_empty()));
    let kept = password_of(&facts, ANN, &mut steps);
    assert_eq!(rt; kept.map_or(0, |kept| kept.serial), 5);
    assert!(rt; !is_disabled(&facts, ANN, &mut steps));
    let disabled = [Fact::Disabled { user: ANN }];
    assert!(rt; is_disabled(&Facts::with(chronicle, &disabled), ANN, &mut steps));
    Ok(())
}

#[test]
fn a_user_is_as_put_last(rt: HostRuntime) -> Result<(), Fail> {
    let chronicle = chronicle(rt.alloc())?;
    says_of_the_user::<Brand, HostRuntime>(&rt, rt.alloc(), &chronicle, Blank::new(1))
}

/// What the facts say of the tab, of one that its root hasn't, and of one that is newer.
fn says_of_tabs<L: Ledger, R: Abort>(rt: &R, chronicle: &Chronicle, blank: Blank)
    requires blank { IsBlank blank L.name L.parts }
{
    let mut steps = Steps::<L>::new(blank);
    let facts = Facts::of(chronicle);
    let state = tab_state(&facts, root(), tab(), &mut steps);
    assert_eq!(rt; state.opening.map_or(9, |opening| opening.level), 0);
    assert_eq!(rt; state.code(), Some(Code(id(5))));
    assert_eq!(rt; state.who(Moment::clamped(9)), None);
    assert!(rt; !state.completed);
    let other = tab_state(&facts, root(), TabKey(id(9)), &mut steps);
    assert_eq!(rt; other.opening, None);
    let more = [Fact::Named {
        tab: tab(),
        user: ANN,
    }];
    let named = tab_state_with(state, root(), tab(), &more);
    assert_eq!(rt; named.who(Moment::clamped(9)), Some(ANN));
    assert_eq!(rt;
        tab_state(&Facts::with(chronicle, &more), root(), tab(), &mut steps),
        named
    );
}

#[test]
fn a_tab_is_its_roots(rt: HostRuntime) -> Result<(), Fail> {
    let chronicle = chronicle(rt.alloc())?;
    says_of_tabs::<Brand, HostRuntime>(&rt, &chronicle, Blank::new(1));
    Ok(())
}

/// What facts say of a tab that is newer than all that the chronicle names.
fn newer<L: Ledger, R: Abort>(rt: &R, chronicle: &Chronicle, blank: Blank)
    requires blank { IsBlank blank L.name L.parts }
{
    let mut steps = Steps::<L>::new(blank);
    let (root, tab) = (RootKey(id(6)), TabKey(id(7)));
    let opened = [Fact::Opened {
        root,
        tab,
        version: 1,
        level: 2,
        life: 60_000,
        moment: Moment::clamped(6),
    }];
    let newer = tab_state(&Facts::with(chronicle, &opened), root, tab, &mut steps);
    assert_eq!(rt; newer.opening.map_or(0, |opening| opening.level), 2);
    assert_eq!(rt; newer.code(), None);
}

#[test]
fn a_newer_tab_is_read_behind_the_chronicle(rt: HostRuntime) -> Result<(), Fail> {
    let chronicle = chronicle(rt.alloc())?;
    newer::<Brand, HostRuntime>(&rt, &chronicle, Blank::new(1));
    Ok(())
}

/// Whether the user's password counts in the tab.
fn counts<L: Ledger>(alloc: Global, chronicle: &Chronicle, blank: Blank) -> Result<bool, Memory>
    requires blank { IsBlank blank L.name L.parts }
{
    let mut steps = Steps::<L>::new(blank);
    let form = name_of_text(alloc, "form")?;
    Ok(has_evidence(&Facts::of(chronicle), tab(), ANN, &form, &mut steps))
}

#[test]
fn an_accepted_password_counts_until_it_is_changed_elsewhere(rt: HostRuntime) -> Result<(), Fail> {
    let alloc = rt.alloc();
    let mut chronicle = chronicle(alloc)?;
    assert!(rt; !counts::<Brand>(alloc, &chronicle, Blank::new(1))?);
    let execution = name_of_text(alloc, "form")?;
    add(
        &mut chronicle,
        Fact::Passed {
            tab: tab(),
            execution,
            user: ANN,
            kind: Some(SecretKind::Password),
            credential: 5,
            moment: Moment::clamped(6),
        },
    )?;
    assert!(rt; counts::<Brand>(alloc, &chronicle, Blank::new(1))?);
    set(&mut chronicle, SecretKind::Otp, Secret::Gone, None)?;
    assert!(rt; counts::<Brand>(alloc, &chronicle, Blank::new(1))?);
    set(
        &mut chronicle,
        SecretKind::Password,
        Secret::Gone,
        Some(tab()),
    )?;
    assert!(rt; counts::<Brand>(alloc, &chronicle, Blank::new(1))?);
    set(&mut chronicle, SecretKind::Password, Secret::Gone, None)?;
    assert!(rt; !counts::<Brand>(alloc, &chronicle, Blank::new(1))?);
    Ok(())
}

fn put_realm(
    alloc: Global,
    chronicle: &mut Chronicle,
    version: u64,
    name: &str,
) -> Result<(), Fail> {
    let builtin = Realm::builtin(alloc)?;
    let parts = RealmParts {
        name: name_of_text(alloc, name)?,
        ..builtin.parts().duplicate(alloc)?
    };
    let realm = Realm::new(alloc, parts)?.ok_or("no realm")?;
    Ok(add(chronicle, Fact::RealmPut { version, realm })?)
}

fn is_named(realm: Option<&Realm>, name: &str) -> bool {
    match realm {
        Some(realm) => realm.parts().name.as_bytes() == name.as_bytes(),
        None => false,
    }
}

/// What the facts say of realms: `bar` is put over `foo`.
fn says_of_realms<L: Ledger, R: Abort>(rt: &R, chronicle: &Chronicle, blank: Blank)
    requires blank { IsBlank blank L.name L.parts }
{
    let mut steps = Steps::<L>::new(blank);
    let facts = Facts::of(chronicle);
    assert_eq!(rt; last_version(&facts), 2);
    assert!(rt; is_named(current_realm(&facts), "bar"));
    assert!(rt; is_named(realm_of(&facts, 1, &mut steps), "foo"));
    assert!(rt; is_named(realm_of(&facts, 2, &mut steps), "bar"));
    assert!(rt; realm_of(&facts, 3, &mut steps).is_none());
}

#[test]
fn the_realm_put_last_is_in_force(rt: HostRuntime) -> Result<(), Fail> {
    let mut chronicle = chronicle(rt.alloc())?;
    assert_eq!(rt; last_version(&Facts::of(&chronicle)), 0);
    assert!(rt; current_realm(&Facts::of(&chronicle)).is_none());
    put_realm(rt.alloc(), &mut chronicle, 1, "foo")?;
    put_realm(rt.alloc(), &mut chronicle, 2, "bar")?;
    says_of_realms::<Brand, HostRuntime>(&rt, &chronicle, Blank::new(1));
    Ok(())
}

fn last_moment<L: Ledger>(chronicle: &Chronicle, blank: Blank) -> u64
    requires blank { IsBlank blank L.name L.parts }
{
    let mut steps = Steps::<L>::new(blank);
    last_used_moment(&Facts::of(chronicle), &mut steps).millis()
}

#[test]
fn counters_stand_at_their_last_values(rt: HostRuntime) -> Result<(), Fail> {
    let chronicle = chronicle(rt.alloc())?;
    let facts = Facts::of(&chronicle);
    assert_eq!(rt; last_tab_serial(&facts), 5);
    assert_eq!(rt; last_stored_serial(&facts), 5);
    assert_eq!(rt; last_moment::<Brand>(&chronicle, Blank::new(1)), 4);
    Ok(())
}

/// The first action that is pending for a user.
fn first<L: Ledger>(chronicle: &Chronicle, user: UserId, blank: Blank) -> Option<Action>
    requires blank { IsBlank blank L.name L.parts }
{
    let mut steps = Steps::<L>::new(blank);
    first_pending(&Facts::of(chronicle), user, &mut steps)
}

#[test]
fn actions_are_asked_in_their_order_until_they_are_done(rt: HostRuntime) -> Result<(), Fail> {
    let mut chronicle = chronicle(rt.alloc())?;
    let user = ANN;
    assert_eq!(rt; first::<Brand>(&chronicle, user, Blank::new(1)), None);
    let kind = Action::UpdatePassword;
    add(&mut chronicle, Fact::ActionSet { user, kind })?;
    assert_eq!(rt; first::<Brand>(&chronicle, user, Blank::new(1)), Some(kind));
    let earlier = Action::VerifyEmail;
    add(
        &mut chronicle,
        Fact::ActionSet {
            user,
            kind: earlier,
        },
    )?;
    assert_eq!(rt;
        first::<Brand>(&chronicle, user, Blank::new(1)),
        Some(earlier)
    );
    assert_eq!(rt; first::<Brand>(&chronicle, UserId(5), Blank::new(1)), None);
    add(
        &mut chronicle,
        Fact::ActionDone {
            user,
            kind: earlier,
        },
    )?;
    assert_eq!(rt; first::<Brand>(&chronicle, user, Blank::new(1)), Some(kind));
    add(
        &mut chronicle,
        Fact::ActionDone {
            user: UserId(5),
            kind,
        },
    )?;
    assert_eq!(rt; first::<Brand>(&chronicle, user, Blank::new(1)), Some(kind));
    add(&mut chronicle, Fact::ActionDone { user, kind })?;
    assert_eq!(rt; first::<Brand>(&chronicle, user, Blank::new(1)), None);
    Ok(())
}

/// What the facts say of tokens: one was made to verify, and wasn't followed.
fn says_of_tokens<L: Ledger, R: Abort>(rt: &R, chronicle: &Chronicle, blank: Blank)
    requires blank { IsBlank blank L.name L.parts }
{
    let mut steps = Steps::<L>::new(blank);
    let (key, kind) = (TokenKey(id(6)), TokenAction::VerifyEmail);
    let facts = Facts::of(chronicle);
    let made = token_made(&facts, key, kind, &mut steps);
    assert_eq!(rt; made.map_or(0, |token| token.expiry), 900);
    assert_eq!(rt; made.map_or(0, |token| token.user.0), 4);
    assert!(rt; token_made(&facts, key, TokenAction::UpdatePassword, &mut steps).is_none());
    assert!(rt; token_made(&facts, TokenKey(id(7)), kind, &mut steps).is_none());
    assert!(rt; !is_token_spent(&facts, key, &mut steps));
    let other = [Fact::SpentToken {
        key: TokenKey(id(7)),
    }];
    assert!(rt; !is_token_spent(&Facts::with(chronicle, &other), key, &mut steps));
    let followed = [Fact::SpentToken { key }];
    assert!(rt; is_token_spent(&Facts::with(chronicle, &followed), key, &mut steps));
    assert!(rt; has_token_room(&facts, &mut steps));
}

#[test]
fn a_token_is_made_for_one_action_and_is_spent_once_followed(rt: HostRuntime) -> Result<(), Fail> {
    let mut chronicle = chronicle(rt.alloc())?;
    add(
        &mut chronicle,
        Fact::TokenMade {
            key: TokenKey(id(6)),
            user: ANN,
            kind: TokenAction::VerifyEmail,
            expiry: 900,
        },
    )?;
    says_of_tokens::<Brand, HostRuntime>(&rt, &chronicle, Blank::new(1));
    Ok(())
}
