ghost use Rattle.std.specs.Prelude.{◌≡◌, ◌<◌, option_map, is_some, length, drop, Some, None};
ghost use Rattle.std.specs.Option.{option_copied};
ghost use Rattle.login_desk.specs.Command.{command_named, option_named, has_option, is_dashed, is_equals, name_and_value};
ghost use Rattle.login_desk.specs.Command.{file_of, with_file, set_once, take_option, known_option, word_after, with_word};
ghost use Rattle.login_desk.specs.Command.{files_read, files_after, no_files, no_words, asked_by, asked_for, command_of, files_of};
ghost use Rattle.login_desk.specs.Command.{names_of, words_read, request_of};

use login_base::Argv;

/// What the program is to do.
#[derive(Clone, Copy, Debug, PartialEq, Eq)]
pub enum Command {
    /// It answers the lines of a script.
    Replay,
    /// It says how large a realm is.
    Check,
}

impl Command {
    fn has_option(self, option: FileOption) -> bool
        ensures { result ≡ has_option self option }
    {
        match self {
            Command::Replay => true,
            Command::Check => match option {
                FileOption::Realm => true,
                FileOption::Script => false,
            },
        }
    }
}

/// The files that the arguments name.
#[derive(Clone, Copy, Debug)]
pub struct Files<'a> {
    pub realm: Option<&'a str>,
    pub script: Option<&'a str>,
}

/// An option, whose value names a file.
#[derive(Clone, Copy, Debug, PartialEq, Eq)]
enum FileOption {
    Realm,
    Script,
}

impl<'a> Files<'a> {
    fn has(&self, option: FileOption) -> bool
        ensures { result ≡ is_some (file_of option (names_of self.now)) }
    {
        match option {
            FileOption::Realm => self.realm.is_some(),
            FileOption::Script => self.script.is_some(),
        }
    }

    fn with(self, option: FileOption, value: &'a str) -> Files<'a>
        ensures { names_of result ≡ with_file option value.now (names_of self.entry) }
    {
        match option {
            FileOption::Realm => Files {
                realm: Some(value),
                script: self.script,
            },
            FileOption::Script => Files {
                realm: self.realm,
                script: Some(value),
            },
        }
    }
}

/// What the words so far say.
#[derive(Clone, Copy)]
struct Reading<'a> {
    files: Files<'a>,
    /// The option whose value the next word is.
    waiting: Option<FileOption>,
}

/// What the arguments ask for.
#[derive(Clone, Copy)]
struct Request<'a> {
    command: Command,
    files: Files<'a>,
}

fn command_named(word: &str) -> Option<Command>
    ensures { result ≡ command_named word.now }
{
    if word.as_bytes() == b"replay".as_slice() {
        return Some(Command::Replay);
    }
    if word.as_bytes() == b"check".as_slice() {
        return Some(Command::Check);
    }
    None
}

fn option_named(word: &str) -> Option<FileOption>
    ensures { result ≡ option_named word.now }
{
    if word.as_bytes() == b"--realm".as_slice() {
        return Some(FileOption::Realm);
    }
    if word.as_bytes() == b"--script".as_slice() {
        return Some(FileOption::Script);
    }
    None
}

fn is_dashed(word: &str) -> bool
    ensures { result ≡ is_dashed word.now }
{
    match word.as_bytes() {
        [] => false,
        [first, ..] => *first == b'-',
    }
}

/// What stands before the first `=`, and what stands after it.
fn name_and_value(word: &str) -> (&str, Option<&str>)
    ensures { (result.0.now, option_copied result.1) ≡ name_and_value word.now }
{
    match word.split_once('=') {
        Some((name, value)) => (name, Some(value)),
        None => (word, None),
    }
}

/// The option has this value, where it isn't there yet.
fn set_once<'a>(files: Files<'a>, option: FileOption, value: &'a str) -> Option<Reading<'a>>
    ensures { option_map words_read result ≡ set_once option value.now (names_of files.entry) }
{
    if files.has(option) {
        return None;
    }
    Some(Reading {
        files: files.with(option, value),
        waiting: None,
    })
}

/// A word that isn't waited for.
fn with_option<'a>(command: Command, files: Files<'a>, word: &'a str) -> Option<Reading<'a>>
    ensures { option_map words_read result ≡ word_after command (names_of files.entry) None word.now }
{
    let (name, value) = name_and_value(word);
    match option_named(name) {
        Some(option) if command.has_option(option) => match value {
            Some(value) => set_once(files, option, value),
            None => Some(Reading {
                files,
                waiting: Some(option),
            }),
        },
        _ => None,
    }
}

/// One more word.
fn with_word<'a>(command: Command, reading: Reading<'a>, word: &'a str) -> Option<Reading<'a>>
    ensures { option_map words_read result ≡ with_word command word.now (words_read reading.entry) }
{
    match reading.waiting {
        Some(_) if is_dashed(word) => None,
        Some(option) => set_once(reading.files, option, word),
        None => with_option(command, reading.files, word),
    }
}

/// The files of the words, where no value is waited for.
fn files_read(reading: Reading<'_>) -> Option<Files<'_>>
    ensures { option_map names_of result ≡ files_read (words_read reading.entry) }
{
    match reading.waiting {
        Some(_) => None,
        None => Some(reading.files),
    }
}

/// The files that the words after the command name.
fn files_after(command: Command, arguments: &Argv) -> Option<Files<'_>>
    requires some { 0 < length arguments.now }
    ensures { option_map names_of result ≡ files_after command (Some no_words) (drop 1 arguments.now) }
{
    let mut reading = Reading {
        files: Files {
            realm: None,
            script: None,
        },
        waiting: None,
    };
    for i in 1..arguments.len() {
        match with_word(command, reading, arguments.argument(i)) {
            Some(next) => reading = next,
            None => return None,
        }
    }
    files_read(reading)
}

/// What the arguments ask for, none where they are outside the grammar.
fn request_of(arguments: &Argv) -> Option<Request<'_>>
    ensures { option_map request_of result ≡ asked_for arguments.now }
{
    if arguments.len() == 0 {
        return None;
    }
    match command_named(arguments.argument(0)) {
        Some(command) => match files_after(command, arguments) {
            Some(files) => Some(Request { command, files }),
            None => None,
        },
        None => None,
    }
}

/// The command of the arguments, none where they are outside the grammar.
pub fn command_of(arguments: &Argv) -> Option<Command>
    ensures command { result ≡ command_of arguments.now }
{
    match request_of(arguments) {
        Some(request) => Some(request.command),
        None => None,
    }
}

/// The files that the arguments name, none where they are outside the grammar.
pub fn files_of(arguments: &Argv) -> Option<Files<'_>>
    ensures files { option_map names_of result ≡ files_of arguments.now }
{
    match request_of(arguments) {
        Some(request) => Some(request.files),
        None => None,
    }
}
