ghost use Rattle.std.specs.Prelude.{◌≡◌, ◌≤◌};
ghost use Rattle.std.specs.Str.{bytes_eq};
ghost use Rattle.mac_kit.specs.Pbkdf2.{pbkdf2_sha256};
ghost use Rattle.login_hall.specs.Found.{finding_of, HasRounds};

use crate::task::Task;
use facts::{Ask, Finding, PasswordHash, Solved};
use login_base::Sequence;
use mac_kit::pbkdf2_sha256;
use std::marker::Model;

/// An ask whose password is still to be hashed. Contracts see it as what its solving answers.
#[derive(Drop)]
pub struct Work {
    /// The ask, with its password gone.
    pub(crate) ask: Ask,
    pub(crate) password: Sequence<u8>,
    pub(crate) task: Task,
}

impl Model for Work {
    ghost use Rattle.std.specs.Prelude.{IsTrue};
    ghost use Rattle.std.specs.Coded.{codes};
    ghost use Rattle.flow_tree.specs.contracts.exec.Exec as exec;
    ghost use Rattle.asks.specs.Passwords.{is_solved};
    ghost use Rattle.asks.specs.Solved.{SolvedAsk};
    ghost use Rattle.login_hall.specs.Found.{finding_of, HasRounds};

    ghost Value = { SolvedAsk };

    ghost coded = { Prim.hlevel (codes, exec.the_row.coded) };

    ghost view = { λ w. record { ask = w.ask; finding = finding_of w.task w.password } };

    ghost invariant = { λ w. IsTrue (is_solved w.ask (finding_of w.task w.password)) × HasRounds w.task };
}

/// The key of 32 bytes that is derived from a password.
fn derived(password: &[u8], salt: &[u8], iterations: u32) -> [u8; 32]
    requires { 1 ≤ iterations }
    ensures { result ≡ pbkdf2_sha256 password.now salt.now iterations 32 }
{
    let mut key = [0u8; 32];
    pbkdf2_sha256(password, salt, iterations, &mut key);
    key
}

fn fits(password: &[u8], hash: &PasswordHash) -> bool
    ensures { result ≡ bytes_eq (pbkdf2_sha256 password.now hash.now.salt hash.now.iterations 32) hash.now.digest }
{
    let key = derived(password, hash.salt(), hash.iterations());
    key.as_slice() == hash.digest().as_slice()
}

/// What is found for a password.
#[tactic(auto, unfolding(crate::specs::Found::finding_of))]
fn finding_of(task: &Task, password: &[u8]) -> Finding
    requires { HasRounds task.now }
    ensures { result ≡ finding_of task.now password.now }
{
    match task {
        Task::Check { target: None } => Finding::Checked {
            had: 0,
            fits: false,
        },
        Task::Check { target: Some(kept) } => Finding::Checked {
            had: kept.serial,
            fits: fits(password, &kept.hash),
        },
        Task::Derive { salt, iterations } => Finding::Derived {
            salt: *salt,
            iterations: *iterations,
            digest: derived(password, salt, *iterations),
        },
    }
}

impl Work {
    /// Hashes the password once. It takes no memory.
    pub fn solve(self) -> Solved
        ensures solved { result ≡ self }
    {
        let Work {
            ask,
            password,
            task,
        } = self;
        let finding = finding_of(&task, password.as_slice());
        match Solved::of_journal(ask, finding) {
            Some(solved) => solved,
            None => unreachable!(),
        }
    }
}
