use crate::{BrowserVerb, Place, admin_of, ask_of_pairs, browser_ask, keyed_ask, pairs_of};
use asks::{Access, AdminVerb, Ask, Form};
use login_base::{Id, Memory, RootKey, discard};
use std::alloc::{AllocGlobal, Global};
use std::process::Abort;
use std::test::Fail;

/// An id's text.
const ID: &str = "0000000000000007.000000000000000a000000000000000b";

/// The SHA-256 digest of `abc` (FIPS 180-4, the example of one block).
const ABC: [u8; 32] = [
    0xba, 0x78, 0x16, 0xbf, 0x8f, 0x01, 0xcf, 0xea, 0x41, 0x41, 0x40, 0xde, 0x5d, 0xae, 0x22, 0x23,
    0xb0, 0x03, 0x61, 0xa3, 0x96, 0x17, 0x7a, 0x9c, 0xb4, 0x10, 0xff, 0x61, 0xf2, 0x00, 0x15, 0xad,
];

/// A verb, its pairs, in which each `@` stands for the text of an id, and where they are malformed:
/// nowhere for an empty text.
const BROWSERS: [(&str, &str, &str); 16] = [
    ("open", "client=app&acr=strong&root=@", ""),
    ("open", "client=App", "client"),
    ("open", "client=app&acr=&root=@&root=@", "acr"),
    ("open", "client=app&root=x", ""),
    ("open", "client=app&root=x&root=x", "root"),
    ("page", "tab=@&other=1&other=2", ""),
    ("page", "root=@", "tab"),
    ("verify", "key=@", ""),
    ("verify", "key=abc", "key"),
    ("reset", "key=@&password=new+one", ""),
    ("reset", "key=@&password=%ff", "password"),
    ("logout", "", ""),
    ("logout", "root=@&root=@", "root"),
    ("begin", "h=1&verb=open", "verb"),
    ("settle", "h=1", "verb"),
    ("", "", "verb"),
];

/// The same for administrators.
const ADMINS: [(&str, &str, &str); 32] = [
    ("user-add", "name=Ann", ""),
    (
        "user-add",
        "name=ann&password=pw&otp=GEZDGNBVGY3TQOJQ&roles=a,b&actions=terms,verify_email",
        "",
    ),
    ("user-add", "password=&otp=", "name"),
    ("user-add", "name=ann&password=&otp=", "password"),
    ("user-add", "name=ann&otp=GEZDGNBV", "otp"),
    ("user-add", "name=ann&roles=a,,b&actions=", "roles"),
    ("user-add", "name=ann&roles=&actions=", "actions"),
    ("user-add", "name=ann&actions=terms,nope", "actions"),
    ("roles", "name=ann&roles=", ""),
    ("roles", "name=ann", "roles"),
    ("roles", "name=ann&roles=A", "roles"),
    ("set-password", "name=ann&password=pw", ""),
    ("set-password", "name=ann", "password"),
    ("otp-set", "name=ann&secret=gezdgnbvgy3tqojq====", ""),
    ("otp-set", "name=ann&secret=GEZDGNBVGY3TQOJ1", "secret"),
    ("otp-remove", "name=ann", ""),
    ("require", "name=ann&action=configure_otp", ""),
    ("require", "name=ann&action=Terms", "action"),
    ("enable", "name=ann", ""),
    ("disable", "name=ann&name=ann", "name"),
    ("unlock", "name=ann", ""),
    ("token", "name=ann&action=update_password&life=31536000", ""),
    ("token", "name=ann&action=terms&life=0", "action"),
    ("token", "name=ann&action=verify_email&life=0", "life"),
    (
        "token",
        "name=ann&action=verify_email&life=31536001",
        "life",
    ),
    ("token", "name=ann&action=verify_email&life=060", "life"),
    ("revoke", "session=@", ""),
    ("revoke", "", "session"),
    ("sweep", "", ""),
    ("realm-put", "text=", ""),
    ("realm-put", "text=%ff", "text"),
    ("remove", "name=ann", "verb"),
];

/// What a post has beside its tab and its code, and where it is malformed.
const POSTS: [(&str, &str); 24] = [
    ("execution=form&name=ann&password=pw", ""),
    ("execution=otp&value=287082", ""),
    ("execution=Form&name=ann", "execution"),
    ("execution=a&execution=b&password=", "execution"),
    ("execution=otp&value=", "value"),
    (
        "execution=otp&value=123456789012345678901234567890123",
        "value",
    ),
    ("execution=otp&value=28-082", "value"),
    ("execution=otp&value=1&password=pw", "form"),
    ("execution=otp", "form"),
    ("action=terms", ""),
    ("action=terms&action=terms", "action"),
    ("action=terms&password=pw", "form"),
    ("action=nope", "form"),
    ("action=update_password&password=pw", ""),
    ("action=update_password", "form"),
    ("action=update_password&password=a&password=a", "password"),
    ("action=configure_otp&value=1a", ""),
    ("action=configure_otp&password=pw", "form"),
    ("action=configure_otp&value=1&password=pw", "form"),
    ("action=recovery_codes", ""),
    ("action=verify_email", ""),
    ("action=verify_email&name=ann", "form"),
    ("action=terms&execution=form", "form"),
    ("", "form"),
];

/// What an administrator asks with a key, and where it is malformed.
const KEYED: [(&str, &str); 8] = [
    ("verb=sweep&key=abc", ""),
    ("verb=sweep", ""),
    ("key=a&key=b", "verb"),
    ("verb=sweep&verb=sweep", "verb"),
    ("verb=open&client=app", "verb"),
    ("verb=realm-put&text=&key=abc", "verb"),
    ("verb=roles&key=a&key=b", "key"),
    ("verb=roles&key=%ff", "key"),
];

/// Where an ask is malformed: nowhere for an empty text.
fn place_of(ask: &Ask) -> &[u8] {
    match ask {
        Ask::Bad { at } => at.as_bytes(),
        _ => &[],
    }
}

/// The ask of a verb and its pairs, with each `@` an id's text, is malformed at the place.
fn is_bad_at(
    rt: &(impl Abort + AllocGlobal),
    verb: &str,
    pairs: &str,
    place: &str,
) -> Result<(), Fail> {
    let text = pairs.replace(rt.alloc(), "@", ID)?;
    let ask = ask_of_pairs(rt.alloc(), verb.as_bytes(), text.as_bytes(), true)?;
    assert_eq!(rt; place_of(&ask), place.as_bytes(), "{verb} {pairs}");
    discard(ask);
    Ok(())
}

#[test]
fn the_first_malformed_place_is_named(rt: HostRuntime) -> Result<(), Fail> {
    for (verb, pairs, place) in BROWSERS {
        is_bad_at(&rt, verb, pairs, place)?;
    }
    for (verb, pairs, place) in ADMINS {
        is_bad_at(&rt, verb, pairs, place)?;
    }
    Ok(())
}

#[test]
fn the_form_of_a_post_is_told_by_its_pairs(rt: HostRuntime) -> Result<(), Fail> {
    is_bad_at(&rt, "post", "code=@&action=nope", "tab")?;
    is_bad_at(&rt, "post", "tab=@&action=nope", "code")?;
    for (pairs, place) in POSTS {
        let post = format!(in rt.alloc(); "tab=@&code=@&{pairs}")?;
        is_bad_at(&rt, "post", &post, place)?;
    }
    Ok(())
}

/// The key's digest, where an administrator asks with one.
fn digest_of(ask: &Ask) -> &[u8] {
    match ask {
        Ask::Admin {
            access: Access::Key(digest),
            ..
        } => digest,
        _ => &[],
    }
}

#[test]
fn an_administrator_with_a_key_names_the_verb_in_a_pair(rt: HostRuntime) -> Result<(), Fail> {
    for (text, place) in KEYED {
        let pairs = pairs_of(rt.alloc(), text.as_bytes())?;
        let ask = keyed_ask(rt.alloc(), pairs.as_slice())?;
        assert_eq!(rt; place_of(&ask), place.as_bytes(), "{text}");
        discard(ask);
    }
    let pairs = pairs_of(rt.alloc(), b"verb=sweep&key=abc")?;
    let ask = keyed_ask(rt.alloc(), pairs.as_slice())?;
    assert_eq!(rt; digest_of(&ask), ABC.as_slice());
    discard(ask);
    let ask = admin_of(rt.alloc(), b"sweep", pairs.as_slice(), Access::Key(ABC))?;
    assert_eq!(rt; digest_of(&ask), ABC.as_slice());
    discard(ask);
    let ask = admin_of(rt.alloc(), b"realm-put", pairs.as_slice(), Access::Key(ABC))?;
    assert_eq!(rt; place_of(&ask), b"verb".as_slice());
    discard(ask);
    Ok(())
}

/// The name in a post of a name and a password.
fn posted_name(ask: &Ask) -> &[u8] {
    match ask {
        Ask::Post(post) => match &post.form {
            Form::NamePassword { name, .. } => name.as_bytes(),
            _ => &[],
        },
        _ => &[],
    }
}

/// The new password that an administrator sets.
fn new_password(ask: &Ask) -> &[u8] {
    match ask {
        Ask::Admin {
            verb: AdminVerb::SetPassword { password, .. },
            ..
        } => password.as_slice(),
        _ => &[],
    }
}

#[test]
fn values_are_decoded(rt: HostRuntime) -> Result<(), Fail> {
    let post = format!(in rt.alloc();
        "tab={ID}&code={ID}&execution=form&name=ANN%40x.org&password=pw"
    )?;
    let ask = ask_of_pairs(rt.alloc(), b"post", post.as_bytes(), true)?;
    assert_eq!(rt; posted_name(&ask), b"ann@x.org".as_slice());
    discard(ask);
    let ask = ask_of_pairs(
        rt.alloc(),
        b"set-password",
        b"name=ann&password=a+b%26%C3%A9",
        true,
    )?;
    assert_eq!(rt; new_password(&ask), b"a b&\xc3\xa9".as_slice());
    discard(ask);
    Ok(())
}

/// The root of a logout.
fn ended_root(ask: &Ask) -> Option<RootKey> {
    match ask {
        Ask::Logout { root } => *root,
        _ => None,
    }
}

#[test]
fn a_root_that_is_handed_in_stands_before_the_pairs(rt: HostRuntime) -> Result<(), Fail> {
    let own = RootKey(Id {
        serial: 1,
        high: 2,
        low: 3,
    });
    let text = format!(in rt.alloc(); "root={ID}&root={ID}")?;
    let pairs = pairs_of(rt.alloc(), text.as_bytes())?;
    let ask = browser_ask(
        rt.alloc(),
        BrowserVerb::Logout,
        Ok(Some(own)),
        pairs.as_slice(),
    )?;
    assert_eq!(rt; ended_root(&ask), Some(own));
    discard(ask);
    let ask = browser_ask(
        rt.alloc(),
        BrowserVerb::Logout,
        Err(Place::Root),
        pairs.as_slice(),
    )?;
    assert_eq!(rt; place_of(&ask), b"root".as_slice());
    discard(ask);
    Ok(())
}
