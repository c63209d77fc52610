ghost use Rattle.std.specs.Prelude.{◌≡◌, ◌≤◌, ◌↔◌, ℕ, List, [], length, Option, Some, IsTrue};
ghost use Rattle.login_base.specs.InMemory.{FailsNext, called, no_calls};
ghost use Rattle.login_base.specs.Outside.{Rose, ReadTakes, IsAtEnd, is_end, ends_after, is_failed_read};

use crate::calls::Calls;
use std::marker::Model;

/// What a read answers. `Got(0)` on a buffer that isn't empty is the end.
#[derive(Clone, Copy, Debug, PartialEq, Eq)]
pub enum Read {
    /// So many bytes stand at the front of the buffer.
    Got(usize),
    /// Nothing was taken.
    Failed,
}

/// Where bytes come from.
pub trait Source {
    /// The bytes still to come, where they are told.
    ghost left: { Self → Option (List ℕ) };

    /// The count of faults, which never falls.
    ghost faults: { Self → ℕ };

    /// The count of ends.
    ghost ends: { Self → ℕ };

    fn read(&mut self, buffer: &mut [u8]) -> Read
        ensures bytes { ReadTakes (left self.old) (left self.new) result buffer.new }
        ensures end { IsTrue (is_end result (length buffer.old)) → IsAtEnd (left self.new) }
        ensures ends { ends self.new ≡ ends_after result (length buffer.old) (ends self.old) }
        ensures faults { faults self.old ≤ faults self.new }
        ensures cause { result ≡ Read.Failed → Rose (faults self.old) (faults self.new) };
}

/// A source in memory.
#[derive(Drop)]
pub struct MemSource {
    bytes: Vec<u8>,
    at: usize,
    calls: Calls,
    ends: u64,
}

impl Model for MemSource {
    ghost use Rattle.std.specs.Prelude.{◌≤◌, drop, vec_len};
    ghost use Rattle.login_base.specs.InMemory.{SourceState};

    ghost Value = { SourceState };

    ghost view = { λ s. record { left = drop s.at s.bytes.items; calls = s.calls; ends = s.ends } };

    ghost invariant = { λ s. s.at ≤ vec_len s.bytes };
}

impl MemSource {
    /// A source of these bytes. The calls whose numbers, from 1, stand in `failing` fail: each is
    /// a fault, and changes nothing else but the number of calls.
    pub fn make(bytes: Vec<u8>, failing: Vec<u64>) -> MemSource
        ensures state { result ≡ record { left = bytes.items; calls = no_calls failing.items; ends = 0 } }
    {
        MemSource {
            bytes,
            at: 0,
            calls: Calls::new(failing),
            ends: 0,
        }
    }
}

/// The count of ends after a read that got so many bytes into so much room.
fn ends_after(got: usize, room: usize, ends: u64) -> u64
    ensures value { result ≡ ends_after (Read.Got got) room ends }
{
    if got == 0 && room != 0 {
        ends.saturating_add(1)
    } else {
        ends
    }
}

impl Source for MemSource {
    ghost left = { λ s. Some s.left };

    ghost faults = { λ s. s.calls.faults };

    ghost ends = { λ s. s.ends };

    fn read(&mut self, buffer: &mut [u8]) -> Read
        ensures bytes { ReadTakes (Some self.old.left) (Some self.new.left) result buffer.new }
        ensures end { IsTrue (is_end result (length buffer.old)) → self.new.left ≡ [] }
        ensures ends { self.new.ends ≡ ends_after result (length buffer.old) self.old.ends }
        ensures faults { self.old.calls.faults ≤ self.new.calls.faults }
        ensures cause { result ≡ Read.Failed → Rose self.old.calls.faults self.new.calls.faults }
        ensures fails { (result ≡ Read.Failed) ↔ FailsNext self.old.calls }
        ensures calls { self.new.calls ≡ called (is_failed_read result) self.old.calls }
    {
        if self.calls.fails() {
            return Read::Failed;
        }
        let count = buffer.len().min(self.bytes.len() - self.at);
        let end = self.at + count;
        buffer[..count].copy_from_slice(&self.bytes[self.at..end]);
        self.at = end;
        self.ends = ends_after(count, buffer.len(), self.ends);
        Read::Got(count)
    }
}
