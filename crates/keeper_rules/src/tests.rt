use crate::{Misfit, foreign_of, misfit_of};
use keeper_columns::read_password;
use keeper_rows::{AccountRow, MarkRow, RealmRow, SecretRow, SessionRow, Tables, Text, TokenRow};
use login_base::{Duplicate, Memory, Sequence};
use realm_data::Realm;
use std::alloc::Global;
use std::test::Fail;

const SESSION: &str = "0000000000000007.00000000000000640000000000000065";

const TOKEN: &str = "0000000000000008.00000000000000640000000000000065";

const LAST_SERIAL: i64 = 1 << 62;

const LAST_MOMENT: i64 = (1 << 53) - 1;

/// One row of each table but the realm's, which keep all rules.
#[derive(Drop)]
struct Kept {
    account: AccountRow,
    secret: SecretRow,
    session: SessionRow,
    token: TokenRow,
    mark: MarkRow,
}

/// One iteration, a salt of four bytes and a digest.
fn body(alloc: Global) -> Result<Sequence<u8>, Memory> {
    let mut body = Vec::from_slice(alloc, b"\0\0\0\x01\x04salt")?;
    body.extend_from_slice(&[7; 32])?;
    Ok(Sequence::from_vec(body))
}

fn account(alloc: Global, id: i64, name: &str) -> Result<AccountRow, Memory> {
    Ok(AccountRow {
        id,
        name: Text::new(alloc, name)?,
        roles: Text::new(alloc, "")?,
        enabled: 1,
        count: 0,
        last: -1,
        until: 0,
        permanent: 0,
        actions: Text::new(alloc, "")?,
    })
}

fn secret(alloc: Global, serial: i64) -> Result<SecretRow, Memory> {
    Ok(SecretRow {
        serial,
        user: 5,
        kind: Text::new(alloc, "password")?,
        body: body(alloc)?,
        spent: Text::new(alloc, "")?,
    })
}

fn session(alloc: Global) -> Result<SessionRow, Memory> {
    Ok(SessionRow {
        id: Text::new(alloc, SESSION)?,
        user: 5,
        opened: 0,
        seen: LAST_MOMENT,
        idle: 1,
        max: 1,
        levels: Text::new(alloc, "")?,
    })
}

fn token(alloc: Global) -> Result<TokenRow, Memory> {
    Ok(TokenRow {
        key: Text::new(alloc, TOKEN)?,
        user: 5,
        kind: Text::new(alloc, "verify_email")?,
        expiry: 0,
        spent: 0,
    })
}

fn rows(alloc: Global) -> Result<Kept, Memory> {
    Ok(Kept {
        account: account(alloc, 5, "ann")?,
        secret: secret(alloc, 6)?,
        session: session(alloc)?,
        token: token(alloc)?,
        mark: MarkRow {
            schema: 1,
            serial: LAST_SERIAL,
            moment: LAST_MOMENT,
        },
    })
}

fn tables_of(alloc: Global, rows: Kept) -> Result<Tables, Memory> {
    let Kept {
        account,
        secret,
        session,
        token,
        mark,
    } = rows;
    let mut tables = Tables::empty(alloc);
    tables.accounts.push(account)?;
    tables.secrets.push(secret)?;
    tables.sessions.push(session)?;
    tables.tokens.push(token)?;
    tables.marks.push(mark)?;
    Ok(tables)
}

/// The rule and the row of the first misfit, or two zeros.
fn found(alloc: Global, tables: &Tables) -> Result<(u32, u64), Memory> {
    match misfit_of(alloc, tables) {
        Ok(Some(Misfit { rule, row })) => Ok((rule, row)),
        Ok(None) => Ok((0, 0)),
        Err(Memory) => Err(Memory),
    }
}

/// A number that has a range.
#[derive(Clone, Copy)]
enum Number {
    Account,
    Enabled,
    Count,
    Last,
    Until,
    Permanent,
    Secret,
    Opened,
    Seen,
    Idle,
    Max,
    Expiry,
    Spent,
}

fn set(rows: &mut Kept, number: Number, value: i64) {
    match number {
        Number::Account => {
            rows.account.id = value;
            rows.secret.user = value;
            rows.session.user = value;
            rows.token.user = value;
        }
        Number::Enabled => rows.account.enabled = value,
        Number::Count => rows.account.count = value,
        Number::Last => rows.account.last = value,
        Number::Until => rows.account.until = value,
        Number::Permanent => rows.account.permanent = value,
        Number::Secret => rows.secret.serial = value,
        Number::Opened => rows.session.opened = value,
        Number::Seen => rows.session.seen = value,
        Number::Idle => rows.session.idle = value,
        Number::Max => rows.session.max = value,
        Number::Expiry => rows.token.expiry = value,
        Number::Spent => rows.token.spent = value,
    }
}

/// The rule that such a number breaks, or 0.
fn rule_of(alloc: Global, number: Number, value: i64) -> Result<u32, Memory> {
    let mut rows = rows(alloc)?;
    set(&mut rows, number, value);
    let tables = tables_of(alloc, rows)?;
    Ok(found(alloc, &tables)?.0)
}

/// The least and the greatest of each number, and the rule that one past them breaks.
const RANGES: [(Number, i64, i64, u32); 13] = [
    (Number::Account, 1, LAST_SERIAL, 3),
    (Number::Enabled, 0, 1, 3),
    (Number::Count, 0, 4_294_967_295, 3),
    (Number::Last, -1, LAST_MOMENT, 3),
    (Number::Until, 0, 1 << 54, 3),
    (Number::Permanent, 0, 1, 3),
    (Number::Secret, 1, LAST_SERIAL, 4),
    (Number::Opened, 0, LAST_MOMENT, 5),
    (Number::Seen, 0, LAST_MOMENT, 5),
    (Number::Idle, 1, 31_536_000, 5),
    (Number::Max, 1, 31_536_000, 5),
    (Number::Expiry, 0, 1 << 54, 6),
    (Number::Spent, 0, 1, 6),
];

#[test]
fn a_number_past_its_range_breaks_the_rule_of_its_table(rt: HostRuntime) -> Result<(), Fail> {
    let alloc = rt.alloc();
    for (number, least, greatest, rule) in RANGES {
        assert_eq!(rt; rule_of(alloc, number, least)?, 0);
        assert_eq!(rt; rule_of(alloc, number, greatest)?, 0);
        assert_eq!(rt; rule_of(alloc, number, least.wrapping_sub(1))?, rule);
        assert_eq!(rt; rule_of(alloc, number, greatest.wrapping_add(1))?, rule);
    }
    Ok(())
}

/// A column of text.
#[derive(Clone, Copy)]
enum Column {
    Name,
    Roles,
    Actions,
    Kind,
    /// What is spent of a one-time code.
    Steps,
    Session,
    Levels,
    Key,
    TokenKind,
}

fn write(alloc: Global, rows: &mut Kept, column: Column, text: &str) -> Result<(), Memory> {
    let text = Text::new(alloc, text)?;
    match column {
        Column::Name => rows.account.name = text,
        Column::Roles => rows.account.roles = text,
        Column::Actions => rows.account.actions = text,
        Column::Kind => rows.secret.kind = text,
        Column::Steps => {
            rows.secret.kind = Text::new(alloc, "otp")?;
            rows.secret.spent = text;
        }
        Column::Session => rows.session.id = text,
        Column::Levels => rows.session.levels = text,
        Column::Key => rows.token.key = text,
        Column::TokenKind => rows.token.kind = text,
    }
    Ok(())
}

/// The rule that such a text breaks, or 0.
fn rule_with(alloc: Global, column: Column, text: &str) -> Result<u32, Memory> {
    let mut rows = rows(alloc)?;
    write(alloc, &mut rows, column, text)?;
    let tables = tables_of(alloc, rows)?;
    Ok(found(alloc, &tables)?.0)
}

const TEXTS: [(Column, &str, u32); 40] = [
    (Column::Name, "a.b", 0),
    (Column::Name, "Ann", 3),
    (Column::Roles, "a,b,c", 0),
    (Column::Roles, "b,a", 3),
    (Column::Roles, "a,a", 3),
    (Column::Roles, "a,", 3),
    (Column::Roles, ",", 3),
    (
        Column::Actions,
        "terms,verify_email,update_password,configure_otp,recovery_codes",
        0,
    ),
    (Column::Actions, "verify_email,terms", 3),
    (Column::Actions, "term", 3),
    (Column::Kind, "Password", 4),
    (Column::Kind, "otp", 0),
    (Column::Kind, "recovery", 4),
    (Column::Steps, "", 0),
    (Column::Steps, "1,2,5", 0),
    (Column::Steps, "1,6", 4),
    (Column::Steps, "2,2", 4),
    (Column::Steps, "3,2", 4),
    (Column::Steps, "01", 4),
    (Column::Steps, "300239975160", 0),
    (Column::Steps, "300239975161", 7),
    (
        Column::Session,
        "4000000000000000.00000000000000640000000000000065",
        0,
    ),
    (
        Column::Session,
        "4000000000000001.00000000000000640000000000000065",
        5,
    ),
    (
        Column::Session,
        "0000000000000000.00000000000000640000000000000065",
        5,
    ),
    (
        Column::Session,
        "0000000000000006.00000000000000640000000000000065",
        7,
    ),
    (Column::Session, "7", 5),
    (Column::Levels, "1@0,2@9007199254740991,1000@5", 0),
    (Column::Levels, "0@1", 5),
    (Column::Levels, "1001@1", 5),
    (Column::Levels, "1@9007199254740992", 5),
    (Column::Levels, "2@1,1@1", 5),
    (Column::Levels, "1@1,1@2", 5),
    (Column::Levels, "1", 5),
    (
        Column::Key,
        "4000000000000000.00000000000000640000000000000065",
        0,
    ),
    (
        Column::Key,
        "4000000000000001.00000000000000640000000000000065",
        6,
    ),
    (
        Column::Key,
        "0000000000000000.00000000000000640000000000000065",
        6,
    ),
    (Column::Key, SESSION, 7),
    (Column::TokenKind, "update_password", 0),
    (Column::TokenKind, "terms", 6),
    (Column::TokenKind, "", 6),
];

#[test]
fn a_text_outside_its_grammar_breaks_the_rule_of_its_table(rt: HostRuntime) -> Result<(), Fail> {
    for (column, text, rule) in TEXTS {
        assert_eq!(rt; rule_with(rt.alloc(), column, text)?, rule);
    }
    Ok(())
}

/// A way to break a rule by rows that are sound in themselves.
#[derive(Clone, Copy)]
enum Broken {
    Nowhere,
    NoMark,
    SecondMark,
    SecondRealm,
    RealmVersion(u64),
    SameName,
    /// A bad row held before a good one of a smaller key.
    BadBeforeGood,
    SecretOfNobody,
    SecondPassword,
    OpenedAfterSeen,
    SessionOfNobody,
    TokenOfNobody,
    Mark(i64, i64),
}

fn realm(alloc: Global, version: u64) -> Result<RealmRow, Memory> {
    Ok(RealmRow {
        version,
        realm: Realm::builtin(alloc)?,
    })
}

fn more_rows(alloc: Global, tables: &mut Tables, broken: Broken) -> Result<(), Memory> {
    match broken {
        Broken::NoMark => tables.marks = Sequence::new(alloc),
        Broken::SecondMark => tables.marks.push(rows(alloc)?.mark)?,
        Broken::SecondRealm => {
            tables.realms.push(realm(alloc, 1)?)?;
            tables.realms.push(realm(alloc, 2)?)?;
        }
        Broken::RealmVersion(version) => tables.realms.push(realm(alloc, version)?)?,
        Broken::SameName => tables.accounts.push(account(alloc, 9, "ann")?)?,
        Broken::BadBeforeGood => {
            tables.accounts = Sequence::new(alloc);
            tables.accounts.push(account(alloc, 9, "Bob")?)?;
            tables.accounts.push(account(alloc, 5, "ann")?)?;
        }
        Broken::SecondPassword => tables.secrets.push(secret(alloc, 9)?)?,
        _ => {}
    }
    Ok(())
}

fn other_rows(rows: &mut Kept, broken: Broken) {
    match broken {
        Broken::SecretOfNobody => rows.secret.user = 4,
        Broken::OpenedAfterSeen => {
            rows.session.opened = 2;
            rows.session.seen = 1;
        }
        Broken::SessionOfNobody => rows.session.user = 4,
        Broken::TokenOfNobody => rows.token.user = 4,
        Broken::Mark(serial, moment) => {
            rows.mark.serial = serial;
            rows.mark.moment = moment;
        }
        _ => {}
    }
}

fn misfit_by(alloc: Global, broken: Broken) -> Result<(u32, u64), Memory> {
    let mut rows = rows(alloc)?;
    other_rows(&mut rows, broken);
    let mut tables = tables_of(alloc, rows)?;
    more_rows(alloc, &mut tables, broken)?;
    found(alloc, &tables)
}

const BROKEN: [(Broken, u32, u64); 18] = [
    (Broken::Nowhere, 0, 0),
    (Broken::NoMark, 1, 1),
    (Broken::SecondMark, 1, 1),
    (Broken::SecondRealm, 2, 2),
    (Broken::RealmVersion(0), 2, 1),
    (Broken::RealmVersion(1), 0, 0),
    (Broken::RealmVersion(1 << 62), 0, 0),
    (Broken::RealmVersion((1 << 62) + 1), 2, 1),
    (Broken::SameName, 3, 2),
    (Broken::BadBeforeGood, 3, 2),
    (Broken::SecretOfNobody, 4, 1),
    (Broken::SecondPassword, 4, 2),
    (Broken::OpenedAfterSeen, 5, 1),
    (Broken::SessionOfNobody, 5, 1),
    (Broken::TokenOfNobody, 6, 1),
    (Broken::Mark(LAST_SERIAL + 1, LAST_MOMENT), 7, 1),
    (Broken::Mark(7, LAST_MOMENT), 7, 1),
    (Broken::Mark(LAST_SERIAL, LAST_MOMENT - 1), 7, 1),
];

#[test]
fn each_rule_names_its_first_row(rt: HostRuntime) -> Result<(), Fail> {
    for (broken, rule, row) in BROKEN {
        assert_eq!(rt; misfit_by(rt.alloc(), broken)?, (rule, row));
    }
    Ok(())
}

#[test]
fn a_schema_is_foreign_and_a_password_is_read(rt: HostRuntime) -> Result<(), Fail> {
    let alloc = rt.alloc();
    let mut rows = rows(alloc)?;
    assert!(rt; read_password(rows.secret.body.as_slice()).is_some());
    rows.mark.schema = 3;
    let mut tables = tables_of(alloc, rows)?;
    assert_eq!(rt; foreign_of(&tables), Some(3));
    tables.marks.push(MarkRow {
        schema: 3,
        serial: 0,
        moment: 0,
    })?;
    assert_eq!(rt; foreign_of(&tables), None);
    assert_eq!(rt; found(alloc, &tables.duplicate(alloc)?)?, (1, 1));
    Ok(())
}
