use crate::SqlKeeper;
use crate::making::make_schema;
use keeper_core::{CommitFault, Keeper, LoadFault};
use keeper_rows::{
    AccountRow, Batch, Change, MarkRow, Row, RowKey, SecretRow, SessionRow, Tables, Text, TokenRow,
};
use login_base::{Memory, Sequence};
use realm_data::Realm;
use sqlite::{Connection, Error, ErrorCode, MemStore};
use std::alloc::Global;
use std::test::Fail;

const SESSION: &str = "0000000000000003.00000000000000640000000000000065";

const TOKEN: &str = "0000000000000004.00000000000000640000000000000065";

fn account(alloc: Global, id: i64, name: &str) -> Result<AccountRow, Memory> {
    Ok(AccountRow {
        id,
        name: Text::new(alloc, name)?,
        roles: Text::new(alloc, "")?,
        enabled: 1,
        count: 0,
        last: -1,
        until: 0,
        permanent: 0,
        actions: Text::new(alloc, "")?,
    })
}

/// A password: one iteration, a salt of four bytes and a digest.
fn secret(alloc: Global) -> Result<SecretRow, Memory> {
    let mut body = Vec::from_slice(alloc, b"\0\0\0\x01\x04salt")?;
    body.extend_from_slice(&[7; 32])?;
    Ok(SecretRow {
        serial: 2,
        user: 1,
        kind: Text::new(alloc, "password")?,
        body: Sequence::from_vec(body),
        spent: Text::new(alloc, "")?,
    })
}

fn session(alloc: Global) -> Result<SessionRow, Memory> {
    Ok(SessionRow {
        id: Text::new(alloc, SESSION)?,
        user: 1,
        opened: 0,
        seen: 0,
        idle: 1,
        max: 1,
        levels: Text::new(alloc, "")?,
    })
}

fn token(alloc: Global) -> Result<TokenRow, Memory> {
    Ok(TokenRow {
        key: Text::new(alloc, TOKEN)?,
        user: 1,
        kind: Text::new(alloc, "verify_email")?,
        expiry: 0,
        spent: 0,
    })
}

/// What one step of a test commits.
#[derive(Clone, Copy)]
enum Step {
    PutRealm,
    PutAccount(i64, &'static str),
    PutSecret,
    PutSession,
    PutToken,
    PutMark(i64),
    DropRealm,
    DropAccount(i64),
    DropSecret,
    DropSession,
    DropToken,
    DropMark,
}

fn row_of(alloc: Global, step: Step) -> Result<Change, Memory> {
    Ok(match step {
        Step::PutRealm => Change::Put(Row::Realm {
            version: 1,
            realm: Realm::builtin(alloc)?,
        }),
        Step::PutAccount(id, name) => Change::Put(Row::Account(account(alloc, id, name)?)),
        Step::PutSecret => Change::Put(Row::Secret(secret(alloc)?)),
        Step::PutSession => Change::Put(Row::Session(session(alloc)?)),
        Step::PutToken => Change::Put(Row::Token(token(alloc)?)),
        Step::PutMark(schema) => Change::Put(Row::Mark(MarkRow {
            schema,
            serial: 9,
            moment: 3_000,
        })),
        Step::DropRealm => Change::Drop(RowKey::Realm(1)),
        Step::DropAccount(id) => Change::Drop(RowKey::Account(id)),
        Step::DropSecret => Change::Drop(RowKey::Secret(2)),
        Step::DropSession => Change::Drop(RowKey::Session(Text::new(alloc, SESSION)?)),
        Step::DropToken => Change::Drop(RowKey::Token(Text::new(alloc, TOKEN)?)),
        Step::DropMark => Change::Drop(RowKey::Mark),
    })
}

fn batch(alloc: Global, steps: &[Step]) -> Result<Batch, Memory> {
    let mut changes = Sequence::new(alloc);
    for step in steps {
        changes.push(row_of(alloc, *step)?)?;
    }
    Ok(Batch { changes })
}

/// How many rows each table has, a digit a table.
fn counts(tables: &Tables) -> usize {
    let lengths = [
        tables.realms.len(),
        tables.accounts.len(),
        tables.secrets.len(),
        tables.sessions.len(),
        tables.tokens.len(),
        tables.marks.len(),
    ];
    lengths
        .iter()
        .fold(0usize, |all, one| all.wrapping_mul(10).wrapping_add(*one))
}

/// What is loaded, as `counts` has it.
fn loaded(keeper: &mut SqlKeeper<MemStore>) -> Result<usize, LoadFault> {
    match keeper.load() {
        Ok(tables) => Ok(counts(&tables)),
        Err(fault) => Err(fault),
    }
}

/// A keeper over a database in memory, in which these statements were run behind our tables.
fn keeper(alloc: Global, sql: &str) -> Result<SqlKeeper<MemStore>, Fail> {
    let mut conn = Connection::open_in_memory(alloc)?;
    make_schema(&mut conn)?;
    conn.execute_batch(sql)?;
    Ok(SqlKeeper::over(alloc, Ok(conn)))
}

#[test]
fn each_change_is_made_in_its_table(rt: HostRuntime) -> Result<(), Fail> {
    let alloc = rt.alloc();
    let conn = Connection::open_in_memory(alloc)?;
    let mut keeper = SqlKeeper::over(alloc, Ok(conn));
    assert_eq!(rt; loaded(&mut keeper), Ok(0));
    for (step, want) in [
        (Step::PutMark(1), 1),
        (Step::PutRealm, 100_001),
        (Step::PutRealm, 100_001),
        (Step::PutAccount(1, "ann"), 110_001),
        (Step::PutAccount(1, "ben"), 110_001),
        (Step::PutSecret, 111_001),
        (Step::PutSession, 111_101),
        (Step::PutSession, 111_101),
        (Step::PutToken, 111_111),
        (Step::DropRealm, 11_111),
        (Step::DropRealm, 11_111),
        (Step::DropToken, 11_101),
        (Step::DropSession, 11_001),
        (Step::DropSecret, 10_001),
        (Step::DropAccount(2), 10_001),
        (Step::DropAccount(1), 1),
        (Step::DropMark, 0),
    ] {
        assert_eq!(rt; keeper.commit(&batch(alloc, &[step])?), Ok(()));
        assert_eq!(rt; loaded(&mut keeper), Ok(want));
    }
    Ok(())
}

#[test]
fn a_refused_change_undoes_those_before_it(rt: HostRuntime) -> Result<(), Fail> {
    let alloc = rt.alloc();
    let mut keeper = keeper(alloc, "")?;
    assert_eq!(rt; loaded(&mut keeper), Ok(0));
    let first = [Step::PutMark(1), Step::PutAccount(1, "ann")];
    assert_eq!(rt; keeper.commit(&batch(alloc, &first)?), Ok(()));
    let taken = [Step::PutAccount(2, "ben"), Step::PutAccount(3, "ann")];
    assert_eq!(rt;
        keeper.commit(&batch(alloc, &taken)?),
        Err(CommitFault::Failed)
    );
    assert_eq!(rt; loaded(&mut keeper), Ok(10_001));
    let renamed = [
        Step::DropAccount(1),
        Step::PutAccount(3, "ann"),
        Step::PutAccount(2, "ben"),
    ];
    assert_eq!(rt; keeper.commit(&batch(alloc, &renamed)?), Ok(()));
    assert_eq!(rt; loaded(&mut keeper), Ok(20_001));
    Ok(())
}

#[test]
fn what_was_not_opened_or_loaded_takes_no_commit(rt: HostRuntime) -> Result<(), Fail> {
    let alloc = rt.alloc();
    let mut unread = keeper(alloc, "")?;
    assert_eq!(rt;
        unread.commit(&batch(alloc, &[])?),
        Err(CommitFault::Failed)
    );
    for (code, load, commit) in [
        (
            ErrorCode::NotADatabase,
            LoadFault::Failed,
            CommitFault::Failed,
        ),
        (
            ErrorCode::DatabaseBusy,
            LoadFault::Failed,
            CommitFault::Failed,
        ),
        (
            ErrorCode::OutOfMemory,
            LoadFault::Memory,
            CommitFault::Memory,
        ),
    ] {
        let opened: Result<Connection<MemStore>, Error> = Err(Error::SqliteFailure(code));
        let mut shut = SqlKeeper::over(alloc, opened);
        assert_eq!(rt; loaded(&mut shut), Err(load));
        assert_eq!(rt; shut.commit(&batch(alloc, &[])?), Err(commit));
    }
    Ok(())
}

#[test]
fn other_tables_than_ours_are_not_loaded(rt: HostRuntime) -> Result<(), Fail> {
    let alloc = rt.alloc();
    for sql in [
        "CREATE TABLE other (a INTEGER)",
        "CREATE INDEX other ON account (enabled)",
        "CREATE VIEW other AS SELECT id FROM account",
        "DROP TABLE mark",
        "DROP TABLE mark; CREATE TABLE mark (one INTEGER PRIMARY KEY, schema INTEGER NOT NULL, serial INTEGER NOT NULL, moment INTEGER) STRICT",
        "BEGIN",
    ] {
        let mut keeper = keeper(alloc, sql)?;
        assert_eq!(rt; loaded(&mut keeper), Err(LoadFault::Failed));
    }
    Ok(())
}

#[test]
fn rows_of_another_hand_are_told_by_the_first_rule_they_break(rt: HostRuntime) -> Result<(), Fail> {
    let alloc = rt.alloc();
    for (sql, want) in [
        ("INSERT INTO mark VALUES (1, 1, 0, 0)", Ok(1)),
        (
            "INSERT INTO mark VALUES (1, 3, 0, 0)",
            Err(LoadFault::Foreign { version: 3 }),
        ),
        (
            "INSERT INTO mark VALUES (1, 1, 0, 0), (2, 1, 0, 0)",
            Err(LoadFault::Misfit { rule: 1, row: 1 }),
        ),
        (
            "INSERT INTO mark VALUES (2, 1, 0, 0)",
            Err(LoadFault::Misfit { rule: 7, row: 1 }),
        ),
        (
            "INSERT INTO mark VALUES (1, 1, 0, 0); INSERT INTO realm VALUES (1, 'format = 2')",
            Err(LoadFault::Misfit { rule: 2, row: 1 }),
        ),
        (
            "INSERT INTO realm VALUES (1, 'format = 2')",
            Err(LoadFault::Misfit { rule: 1, row: 1 }),
        ),
        (
            "INSERT INTO mark VALUES (1, 3, 0, 0); INSERT INTO realm VALUES (1, 'format = 2')",
            Err(LoadFault::Foreign { version: 3 }),
        ),
        (
            "INSERT INTO mark VALUES (1, 1, 0, 0); INSERT INTO realm VALUES (-1, '')",
            Err(LoadFault::Misfit { rule: 2, row: 1 }),
        ),
    ] {
        let mut keeper = keeper(alloc, sql)?;
        assert_eq!(rt; loaded(&mut keeper), want);
    }
    Ok(())
}
