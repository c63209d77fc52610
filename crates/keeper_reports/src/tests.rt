use crate::{Report, report_text};
use keeper_rows::{AccountRow, SessionRow, Tables, Text, TokenRow};
use login_base::Memory;
use std::alloc::Global;
use std::test::Fail;

/// A name, an id, whether it is enabled, a count, whether it is permanent, and actions.
type Account = (&'static str, i64, i64, i64, i64, &'static str);

/// An id, its user, the moments at which it was opened and last seen, and levels.
type Session = (&'static str, i64, i64, i64, &'static str);

/// A key, its user, its kind, its expiry, and whether it is spent.
type Token = (&'static str, i64, &'static str, i64, i64);

const ACCOUNTS: [Account; 7] = [
    ("bob", 10, 1, 0, 0, "terms"),
    ("ann", 1, 1, 0, 0, ""),
    (
        "abcdefghijklmnopqrstuvwxyz0123456",
        123_456_789,
        0,
        999_999,
        1,
        "",
    ),
    (
        "a",
        2,
        1,
        1_000_000,
        0,
        "terms,verify_email,update_password",
    ),
    (
        "abcdefghijklmnopqrstuvwxyz012345",
        12_345_678,
        1,
        4_294_967_295,
        1,
        "",
    ),
    ("a.b", 4_611_686_018_427_387_904, 0, 3, 0, ""),
    ("0", 3, 1, 7, 0, ""),
];

const USERS: [&str; 7] = [
    "0                                       3 on       7 -",
    "a                                       2 on  1000000 terms,verify_email,update_password",
    "a.b                              4611686018427387904 off      3 -",
    "abcdefghijklmnopqrstuvwxyz012345 12345678 off 4294967295 -",
    "abcdefghijklmnopqrstuvwxyz0123456 123456789 off 999999 -",
    "ann                                     1 on       0 -",
    "bob                                    10 on       0 terms",
];

const SESSIONS: [Session; 5] = [
    (
        "000000000000000a.00000000000000010000000000000001",
        1,
        5,
        5,
        "",
    ),
    (
        "0000000000000009.00000000000000020000000000000002",
        10,
        0,
        9_007_199_254_740_991,
        "1@1000",
    ),
    (
        "00000000000000ff.00000000000000000000000000000000",
        99,
        1,
        9_223_372_036_854_775_807,
        "1@1000,2@3000",
    ),
    (
        "0000000000000100.00000000000000000000000000000000",
        123_456_789,
        12,
        34,
        "",
    ),
    (
        "4000000000000000.00000000000000000000000000000000",
        3,
        1,
        2,
        "1000@0",
    ),
];

const SESSION_LINES: [&str; 5] = [
    "0000000000000009.00000000000000020000000000000002 bob                                             0 9007199254740991 1@1000",
    "000000000000000a.00000000000000010000000000000001 ann                                             5                5 -",
    "00000000000000ff.00000000000000000000000000000000 -                                               1 9223372036854775807 1@1000,2@3000",
    "0000000000000100.00000000000000000000000000000000 abcdefghijklmnopqrstuvwxyz0123456               12               34 -",
    "4000000000000000.00000000000000000000000000000000 0                                               1                2 1000@0",
];

const TOKENS: [Token; 4] = [
    (
        "000000000000001f.00000000000000070000000000000007",
        2,
        "verify_email",
        0,
        1,
    ),
    (
        "0000000000000010.00000000000000080000000000000008",
        12_345_678,
        "update_password",
        18_014_398_509_481_984,
        0,
    ),
    (
        "0000000000000020.00000000000000000000000000000000",
        5,
        "verify_email",
        9_007_199_254_740_991,
        0,
    ),
    (
        "000000000000000f.00000000000000ff00000000000000ff",
        10,
        "update_password",
        1_000,
        1,
    ),
];

const TOKEN_LINES: [&str; 4] = [
    "000000000000000f.00000000000000ff00000000000000ff bob                              update_password             1000 spent",
    "0000000000000010.00000000000000080000000000000008 abcdefghijklmnopqrstuvwxyz012345 update_password 18014398509481984 unspent",
    "000000000000001f.00000000000000070000000000000007 a                                verify_email                   0 spent",
    "0000000000000020.00000000000000000000000000000000 -                                verify_email    9007199254740991 unspent",
];

fn account(alloc: Global, row: Account) -> Result<AccountRow, Memory> {
    let (name, id, enabled, count, permanent, actions) = row;
    Ok(AccountRow {
        id,
        name: Text::new(alloc, name)?,
        roles: Text::new(alloc, "staff")?,
        enabled,
        count,
        last: 77,
        until: 88,
        permanent,
        actions: Text::new(alloc, actions)?,
    })
}

fn session(alloc: Global, row: Session) -> Result<SessionRow, Memory> {
    let (id, user, opened, seen, levels) = row;
    Ok(SessionRow {
        id: Text::new(alloc, id)?,
        user,
        opened,
        seen,
        idle: 1_800,
        max: 36_000,
        levels: Text::new(alloc, levels)?,
    })
}

fn token(alloc: Global, row: Token) -> Result<TokenRow, Memory> {
    let (key, user, kind, expiry, spent) = row;
    Ok(TokenRow {
        key: Text::new(alloc, key)?,
        user,
        kind: Text::new(alloc, kind)?,
        expiry,
        spent,
    })
}

fn tables(
    alloc: Global,
    accounts: &[Account],
    sessions: &[Session],
    tokens: &[Token],
) -> Result<Tables, Memory> {
    let mut tables = Tables::empty(alloc);
    for row in accounts {
        tables.accounts.push(account(alloc, *row)?)?;
    }
    for row in sessions {
        tables.sessions.push(session(alloc, *row)?)?;
    }
    for row in tokens {
        tables.tokens.push(token(alloc, *row)?)?;
    }
    Ok(tables)
}

/// Whether the report is these lines, each ended by a newline.
fn says(alloc: Global, tables: &Tables, report: Report, lines: &[&str]) -> Result<bool, Memory> {
    let mut wanted = Vec::new(alloc);
    for line in lines {
        wanted.extend_from_slice(line.as_bytes())?;
        wanted.push(b'\n')?;
    }
    let text = report_text(alloc, tables, report)?;
    Ok(text.as_slice() == wanted.as_slice())
}

#[test]
fn empty_tables_have_empty_reports(rt: HostRuntime) -> Result<(), Fail> {
    let alloc = rt.alloc();
    let tables = Tables::empty(alloc);
    for report in [Report::Users, Report::Sessions, Report::Tokens] {
        assert!(rt; says(alloc, &tables, report, &[])?);
    }
    Ok(())
}

#[test]
fn reports_have_a_line_for_each_row(rt: HostRuntime) -> Result<(), Fail> {
    let alloc = rt.alloc();
    let tables = tables(alloc, &ACCOUNTS, &SESSIONS, &TOKENS)?;
    assert!(rt; says(alloc, &tables, Report::Users, &USERS)?);
    assert!(rt; says(alloc, &tables, Report::Sessions, &SESSION_LINES)?);
    assert!(rt; says(alloc, &tables, Report::Tokens, &TOKEN_LINES)?);
    Ok(())
}

/// Rows that tie stay as they are held, and a user's first account is the one that is named.
#[test]
fn ties_stay_as_they_stand(rt: HostRuntime) -> Result<(), Fail> {
    let alloc = rt.alloc();
    let accounts = [
        ("ann", 2, 1, 0, 0, ""),
        ("ann", 1, 1, 0, 0, ""),
        ("abe", 1, 1, 0, 0, ""),
    ];
    let sessions = [
        (
            "0000000000000004.00000000000000090000000000000009",
            1,
            0,
            0,
            "",
        ),
        (
            "0000000000000003.00000000000000000000000000000000",
            1,
            0,
            0,
            "",
        ),
        (
            "0000000000000004.00000000000000010000000000000001",
            1,
            0,
            0,
            "",
        ),
    ];
    let tables = tables(alloc, &accounts, &sessions, &[])?;
    let users = [
        "abe                                     1 on       0 -",
        "ann                                     2 on       0 -",
        "ann                                     1 on       0 -",
    ];
    assert!(rt; says(alloc, &tables, Report::Users, &users)?);
    let lines = [
        "0000000000000003.00000000000000000000000000000000 ann                                             0                0 -",
        "0000000000000004.00000000000000090000000000000009 ann                                             0                0 -",
        "0000000000000004.00000000000000010000000000000001 ann                                             0                0 -",
    ];
    assert!(rt; says(alloc, &tables, Report::Sessions, &lines)?);
    Ok(())
}
