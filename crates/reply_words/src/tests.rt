use crate::words_of;
use asks::{Need, Next, Reply, Rule, What, Who};
use flow_tree::Kind;
use login_base::{
    Code, Id, Memory, Name, RootKey, Sequence, SessionId, TabKey, UserId, discard, read_name,
};
use realm_data::Action;
use std::alloc::{AllocGlobal, Global};
use std::process::Abort;
use std::test::Fail;

/// An id whose text is 0000000000000007.000000000000000a000000000000000b.
const ID: Id = Id {
    serial: 7,
    high: 10,
    low: 11,
};

/// The text of `ID`.
const SPELLED: &str = "0000000000000007.000000000000000a000000000000000b";

const RULES: [(Rule, &str); 9] = [
    (Rule::WrongKey, "WrongKey"),
    (Rule::UserTaken, "UserTaken"),
    (Rule::TooManyUsers, "TooManyUsers"),
    (Rule::NoSuchUser, "NoSuchUser"),
    (Rule::NothingThere, "NothingThere"),
    (Rule::AccountDisabled, "AccountDisabled"),
    (Rule::TooManyTokens, "TooManyTokens"),
    (Rule::NoSuchSession, "NoSuchSession"),
    (Rule::RealmRefused, "RealmRefused"),
];

const KINDS: [(Kind, &str); 8] = [
    (Kind::Allow, "allow"),
    (Kind::Deny, "deny"),
    (Kind::Cookie, "cookie"),
    (Kind::Username, "username"),
    (Kind::Password, "password"),
    (Kind::Form, "form"),
    (Kind::Otp, "otp"),
    (Kind::Recovery, "recovery#0"),
];

const ACTIONS: [(Action, &str); 5] = [
    (Action::Terms, "terms"),
    (Action::VerifyEmail, "verify_email"),
    (Action::UpdatePassword, "update_password"),
    (Action::ConfigureOtp, "configure_otp secret=aaa,bbb"),
    (Action::RecoveryCodes, "recovery_codes codes=aaa,bbb"),
];

fn name_of(alloc: Global, name: &str) -> Result<Name, Memory> {
    match read_name(alloc, name.as_bytes())? {
        Some(name) => Ok(name),
        None => Err(Memory),
    }
}

fn who(alloc: Global, name: &str) -> Result<Who, Memory> {
    Ok(Who {
        id: UserId(1),
        name: name_of(alloc, name)?,
    })
}

fn text_of(alloc: Global, text: &str) -> Result<Sequence<u8>, Memory> {
    Ok(Sequence::from_vec(Vec::from_slice(alloc, text.as_bytes())?))
}

/// The texts that a page shows.
fn shown(alloc: Global) -> Result<Sequence<Sequence<u8>>, Memory> {
    let mut texts = Sequence::new(alloc);
    texts.push(text_of(alloc, "aaa")?)?;
    texts.push(text_of(alloc, "bbb")?)?;
    Ok(texts)
}

fn need(alloc: Global, id: &str, kind: Kind, number: u32) -> Result<Need, Memory> {
    Ok(Need {
        id: name_of(alloc, id)?,
        kind,
        number,
    })
}

/// The executions that a page asks.
fn asked(alloc: Global) -> Result<Sequence<Need>, Memory> {
    let mut needs = Sequence::new(alloc);
    needs.push(need(alloc, "a", Kind::Otp, 0)?)?;
    needs.push(need(alloc, "b", Kind::Recovery, 3)?)?;
    Ok(needs)
}

fn form(alloc: Global) -> Result<Next, Memory> {
    Ok(Next::Form {
        code: Code(ID),
        asked: asked(alloc)?,
    })
}

fn action(alloc: Global) -> Result<Next, Memory> {
    Ok(Next::Action {
        code: Code(ID),
        kind: Action::ConfigureOtp,
        shown: shown(alloc)?,
    })
}

/// A reply that opens a tab or not is written so, where each `@` stands for the text of `ID`.
fn is_written(
    rt: &(impl Abort + AllocGlobal),
    opens: bool,
    what: What,
    line: &str,
) -> Result<(), Fail> {
    let (tab, opened) = if opens {
        (Some(TabKey(ID)), Some(RootKey(ID)))
    } else {
        (None, None)
    };
    let reply = Reply { tab, opened, what };
    let words = words_of(rt.alloc(), &reply);
    discard(reply);
    let line = line.replace(rt.alloc(), "@", SPELLED)?;
    assert_eq!(rt; words?.as_slice(), line.as_bytes());
    Ok(())
}

fn says(rt: &(impl Abort + AllocGlobal), what: What, line: &str) -> Result<(), Fail> {
    is_written(rt, false, what, line)
}

#[test]
fn a_refusal_has_its_number_and_its_name(rt: HostRuntime) -> Result<(), Fail> {
    says(&rt, What::UnknownClient, "refused 3 UnknownClient")?;
    says(&rt, What::LevelUnknown, "refused 4 LevelUnknown")?;
    says(&rt, What::UnknownTab, "refused 7 UnknownTab")?;
    says(&rt, What::TabExpired, "refused 8 TabExpired")?;
    says(&rt, What::Finished, "refused 11 Finished")?;
    says(&rt, What::NotAsked, "refused 12 NotAsked")?;
    says(&rt, What::Disabled, "refused 14 Disabled")?;
    says(&rt, What::TokenUnknown, "refused 19 TokenUnknown")?;
    says(&rt, What::TokenSpent, "refused 19 TokenSpent")?;
    says(&rt, What::DeadEnd, "refused 22 DeadEnd")
}

#[test]
fn a_refusal_has_its_numbers(rt: HostRuntime) -> Result<(), Fail> {
    says(
        &rt,
        What::TooManyRoots { count: 65_536 },
        "refused 5 TooManyRoots count=65536",
    )?;
    says(
        &rt,
        What::TooManyTabs { count: 300 },
        "refused 6 TooManyTabs count=300",
    )?;
    says(
        &rt,
        What::Locked { until: 80_000 },
        "refused 13 Locked until=80000",
    )?;
    says(
        &rt,
        What::CredentialMoved { had: 2, now: 9 },
        "refused 15 CredentialMoved had=2 now=9",
    )?;
    says(
        &rt,
        What::TokenExpired { expiry: 61_000 },
        "refused 19 TokenExpired expiry=61000",
    )?;
    says(
        &rt,
        What::LevelMissed { level: 1 },
        "refused 23 LevelMissed level=1",
    )
}

#[test]
fn a_refusal_has_its_names_and_its_code(rt: HostRuntime) -> Result<(), Fail> {
    let alloc = rt.alloc();
    let at = name_of(alloc, "head")?;
    says(&rt, What::BadForm { at }, "refused 1 BadForm at=head")?;
    says(
        &rt,
        What::Stale { current: None },
        "refused 9 Stale current=-",
    )?;
    let current = Some(Code(ID));
    says(&rt, What::Stale { current }, "refused 9 Stale current=@")?;
    let execution = name_of(alloc, "no")?;
    says(
        &rt,
        What::Denied { execution },
        "refused 20 Denied execution=no",
    )?;
    let execution = name_of(alloc, "otp")?;
    says(
        &rt,
        What::NotConfigured { execution },
        "refused 21 NotConfigured execution=otp",
    )
}

#[test]
fn another_user_is_refused_by_name(rt: HostRuntime) -> Result<(), Fail> {
    let tab = who(rt.alloc(), "ann")?;
    let session = who(rt.alloc(), "bob")?;
    says(
        &rt,
        What::OtherUser { tab, session },
        "refused 10 OtherUser tab=ann session=bob",
    )
}

#[test]
fn the_same_page_follows_a_wrong_post(rt: HostRuntime) -> Result<(), Fail> {
    let alloc = rt.alloc();
    let next = form(alloc)?;
    says(
        &rt,
        What::BadCredentials { next },
        "refused 16 BadCredentials form code=@ asked=a:otp,b:recovery#3",
    )?;
    let next = form(alloc)?;
    says(
        &rt,
        What::BadCode { next },
        "refused 17 BadCode form code=@ asked=a:otp,b:recovery#3",
    )?;
    let next = action(alloc)?;
    says(
        &rt,
        What::CodeSpent { step: 1, next },
        "refused 18 CodeSpent step=1 action code=@ kind=configure_otp secret=aaa,bbb",
    )
}

#[test]
fn pages_are_written_with_what_they_ask(rt: HostRuntime) -> Result<(), Fail> {
    let code = Code(ID);
    let asked = asked(rt.alloc())?;
    is_written(
        &rt,
        true,
        What::Form { code, asked },
        "root=@ tab=@ form code=@ asked=a:otp,b:recovery#3",
    )?;
    let shown = shown(rt.alloc())?;
    let kind = Action::RecoveryCodes;
    says(
        &rt,
        What::Action { code, kind, shown },
        "action code=@ kind=recovery_codes codes=aaa,bbb",
    )
}

#[test]
fn a_completion_names_its_user(rt: HostRuntime) -> Result<(), Fail> {
    let session = SessionId(ID);
    let (user, level) = (who(rt.alloc(), "ann")?, 2);
    says(
        &rt,
        What::Done {
            session,
            user,
            level,
        },
        "done session=@ user=ann level=2",
    )?;
    let user = who(rt.alloc(), "ann")?;
    let kind = Action::VerifyEmail;
    says(
        &rt,
        What::ActionDone { user, kind },
        "action-done user=ann kind=verify_email",
    )
}

#[test]
fn other_replies_have_their_words(rt: HostRuntime) -> Result<(), Fail> {
    let text = text_of(rt.alloc(), "user name=ann id=1")?;
    says(&rt, What::Told { text }, "told user name=ann id=1")?;
    says(&rt, What::LoggedOut, "logged-out")?;
    says(&rt, What::StoreFault, "fault store")?;
    says(&rt, What::DiceFault, "fault dice")?;
    says(&rt, What::Memory, "fault memory")
}

#[test]
fn rules_have_their_words(rt: HostRuntime) -> Result<(), Fail> {
    for (rule, word) in RULES {
        let line = format!(in rt.alloc(); "refused 2 AdminRefused rule={word}")?;
        says(&rt, What::AdminRefused { rule }, &line)?;
    }
    Ok(())
}

#[test]
fn kinds_have_their_words(rt: HostRuntime) -> Result<(), Fail> {
    for (kind, word) in KINDS {
        let mut asked = Sequence::new(rt.alloc());
        asked.push(need(rt.alloc(), "it", kind, 0)?)?;
        let line = format!(in rt.alloc(); "form code=@ asked=it:{word}")?;
        let code = Code(ID);
        says(&rt, What::Form { code, asked }, &line)?;
    }
    Ok(())
}

#[test]
fn actions_have_their_words(rt: HostRuntime) -> Result<(), Fail> {
    for (kind, words) in ACTIONS {
        let (code, shown) = (Code(ID), shown(rt.alloc())?);
        let line = format!(in rt.alloc(); "action code=@ kind={words}")?;
        says(&rt, What::Action { code, kind, shown }, &line)?;
    }
    Ok(())
}
