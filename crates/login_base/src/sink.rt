ghost use Rattle.std.specs.Prelude.{◌≡◌, ◌≤◌, [], ℕ, List, Option, Some};
ghost use Rattle.login_base.specs.InMemory.{FailsNext, called, no_calls};
ghost use Rattle.login_base.specs.Outside.{Rose, PutAdds, is_failed_put};

use crate::calls::Calls;
use std::alloc::Global;
use std::marker::Model;

/// What a write answers.
#[derive(Clone, Copy, Debug, PartialEq, Eq)]
pub enum Put {
    /// All bytes were written.
    All,
    /// A front of the bytes was written, maybe none.
    Failed,
}

/// Where bytes go.
pub trait Sink {
    /// The bytes written so far, where they are told.
    ghost written: { Self → Option (List ℕ) };

    /// The count of faults, which never falls.
    ghost faults: { Self → ℕ };

    fn put(&mut self, bytes: &[u8]) -> Put
        ensures bytes { PutAdds (written self.old) (written self.new) result bytes.now }
        ensures faults { faults self.old ≤ faults self.new }
        ensures cause { result ≡ Put.Failed → Rose (faults self.old) (faults self.new) };
}

/// A sink in memory.
#[derive(Drop)]
pub struct MemSink {
    bytes: Vec<u8>,
    calls: Calls,
}

impl Model for MemSink {
    ghost use Rattle.login_base.specs.InMemory.{SinkState};

    ghost Value = { SinkState };

    ghost view = { λ s. record { written = s.bytes.items; calls = s.calls } };
}

impl MemSink {
    /// A sink with nothing written. The calls whose numbers, from 1, stand in `failing` fail: each
    /// is a fault, and changes nothing else but the number of calls. So does a call whose bytes
    /// find no room.
    pub fn make(alloc: Global, failing: Vec<u64>) -> MemSink
        ensures state { result ≡ record { written = []; calls = no_calls failing.items } }
    {
        MemSink {
            bytes: Vec::new(alloc),
            calls: Calls::new(failing),
        }
    }

    /// The bytes written so far.
    pub fn bytes(&self) -> &[u8]
        ensures bytes { result.now ≡ self.now.written }
    {
        self.bytes.as_slice()
    }
}

impl Sink for MemSink {
    ghost written = { λ s. Some s.written };

    ghost faults = { λ s. s.calls.faults };

    fn put(&mut self, bytes: &[u8]) -> Put
        ensures bytes { PutAdds (Some self.old.written) (Some self.new.written) result bytes.now }
        ensures faults { self.old.calls.faults ≤ self.new.calls.faults }
        ensures cause { result ≡ Put.Failed → Rose self.old.calls.faults self.new.calls.faults }
        ensures fails { FailsNext self.old.calls → result ≡ Put.Failed }
        ensures calls { self.new.calls ≡ called (is_failed_put result) self.old.calls }
        ensures whole { result ≡ Put.Failed → self.new.written ≡ self.old.written }
    {
        if self.calls.fails() {
            return Put::Failed;
        }
        match self.bytes.extend_from_slice(bytes) {
            Ok(()) => Put::All,
            Err(_) => {
                self.calls.add_fault();
                Put::Failed
            }
        }
    }
}
