//! The program of the login service: it reads a realm and a script and answers each line of the
//! script by a line, or says how large the realm is, and ends with a status. `run` does all of it
//! over any sources and sink; `main` hands in the arguments of the command line, the files that they
//! name, standard input and standard output.
#![tactic(auto)]

mod command;
mod edge;
mod intake;
mod outside;
mod play;
mod realm_given;
mod run;
mod status;
#[cfg(test)]
mod tests;
mod turn;
mod whole;

ghost use Rattle.login_base.specs.Steps.{IsBlank};

use command::{Files, files_of};
use edge::{Input, Opened, Output, open_file};
use login_base::{Argv, Memory, Source, Steps};
use outside::Outside;
use run::run;
use status::{Outcome, Status};
use std::alloc::Global;
use std::fs::File;
use std::marker::Brand;
use std::process::ExitCode;
use std::sync::ledger::{Blank, Ledger};
use std::{env, io};

/// The arguments of the command line. Where one of them isn't UTF-8 there are none, which is
/// outside the grammar.
fn arguments_of(alloc: Global, rt: &HostRuntime) -> Result<Argv, Memory> {
    let mut arguments = Argv::make(alloc);
    match env::args(rt) {
        Ok(given) => {
            for argument in given.skip(1) {
                arguments.push(argument.as_str())?;
            }
            Ok(arguments)
        }
        Err(error) if error.kind() == io::ErrorKind::OutOfMemory => Err(Memory),
        Err(_) => Ok(arguments),
    }
}

/// Runs the program over this script.
fn run_over<L: Ledger, S: Source + Drop>(
    rt: &HostRuntime,
    arguments: &Argv,
    script: S,
    realm: Opened<File>,
    steps: &mut Steps<L>,
) -> Status {
    let mut outside = Outside {
        script,
        realm: Input::new(realm),
        sink: Output::new(io::writer(rt)),
    };
    run(rt.alloc(), arguments, &mut outside, steps)
}

/// Runs the program over the files that the arguments name. Without a script it is standard input.
fn run_on<L: Ledger>(rt: &HostRuntime, arguments: &Argv, steps: &mut Steps<L>) -> Status {
    let files = match files_of(arguments) {
        Some(files) => files,
        None => Files {
            realm: None,
            script: None,
        },
    };
    let realm = match files.realm {
        Some(path) => open_file(rt, path),
        None => Opened::Nothing,
    };
    match files.script {
        Some(path) => run_over(rt, arguments, Input::new(open_file(rt, path)), realm, steps),
        None => run_over(rt, arguments, Input::new(rt.reader()), realm, steps),
    }
}

/// Runs the program, with a counter of steps on this ledger.
fn run_counted<L: Ledger>(rt: &HostRuntime, blank: Blank) -> Status
    requires blank { IsBlank blank L.name L.parts }
{
    let mut steps = Steps::<L>::new(blank);
    match arguments_of(rt.alloc(), rt) {
        Ok(arguments) => run_on(rt, &arguments, &mut steps),
        Err(Memory) => Outcome::Memory.status(),
    }
}

fn main(rt: HostRuntime) -> ExitCode {
    let Status(number) = run_counted::<Brand>(&rt, Blank::new(1));
    ExitCode::from(number)
}
