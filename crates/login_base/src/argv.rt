ghost use Rattle.std.specs.Prelude.{◌≡◌, ◌<◌, [], ◌∷◌, ◌++◌, length, OnOk, OnErr, slice_get, Some};

use crate::memory::Memory;
use std::alloc::Global;
use std::marker::Model;

/// The arguments of a command line, without the program's name. Contracts see the list of their
/// bytes.
#[derive(Drop)]
pub struct Argv {
    alloc: Global,
    arguments: Vec<String>,
}

impl Model for Argv {
    ghost use Rattle.std.specs.Prelude.{List, ℕ, map};
    ghost use Rattle.std.specs.String.{string_bytes};

    ghost Value = { List (List ℕ) };

    ghost view = { λ a. map string_bytes a.arguments.items };
}

impl Argv {
    /// No arguments.
    pub fn make(alloc: Global) -> Argv
        ensures arguments { result ≡ [] }
    {
        Argv {
            alloc,
            arguments: Vec::new(alloc),
        }
    }

    pub fn len(&self) -> usize
        ensures value { result ≡ length self.now }
    {
        self.arguments.len()
    }

    /// The argument at a place, from 0.
    pub fn argument(&self, index: usize) -> &str
        requires within { index < length self.now }
        ensures argument { slice_get self.now index ≡ Some result.now }
    {
        self.arguments[index].as_str()
    }

    /// Adds an argument at the end.
    pub fn push(&mut self, argument: &str) -> Result<(), Memory>
        ensures ok { OnOk result (self.new ≡ self.old ++ argument.now ∷ []) }
        ensures err { OnErr result (self.new ≡ self.old) }
    {
        let text = String::from_str(self.alloc, argument)?;
        self.arguments.push(text)?;
        Ok(())
    }
}
