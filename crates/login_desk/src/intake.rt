ghost use Rattle.std.specs.Prelude.{◌≡◌, ◌<◌, ◌≤◌, ◌^◌, ◌+◌, ◌++◌, [], ◌∷◌, length, true, IfOk, OnOk, IsTrue, vec_len};
ghost use Rattle.login_base.specs.Outside.{Rose, ReadTakes, IsAtEnd, is_end as is_read_end, ends_after};
ghost use Rattle.login_desk.specs.Intake.{Refills, TakesByte, TakesNext, ends_with, is_refill_end, is_byte_end, is_end, kept_of, with_byte};
ghost use Rattle.script_lines.specs.Lines.{line_limit};

use login_base::{Memory, Read, Source};
use script_lines::LINE_LIMIT;
use std::alloc::Global;
use std::marker::Model;

/// So many bytes of a script are taken at most.
pub const SCRIPT_LIMIT: u64 = 1 << 32;

/// Takes the bytes of a source one after the other. Contracts see those that were read and not
/// taken yet, and how many were taken.
#[derive(Drop)]
pub struct Intake {
    buffer: Vec<u8>,
    from: usize,
    to: usize,
    taken: u64,
}

impl Model for Intake {
    ghost use Rattle.std.specs.Prelude.{◌<◌, ◌≤◌, ◌^◌, take, drop, vec_len};
    ghost use Rattle.login_desk.specs.Intake.{Held};

    ghost Value = { Held };

    ghost view = { λ i. record { pending = drop i.from (take i.to i.buffer.items); taken = i.taken } };

    ghost invariant = { λ i. (i.from ≤ i.to) × (i.to ≤ vec_len i.buffer) × (0 < vec_len i.buffer) ×
        (i.taken ≤ 2 ^ 32) };
}

/// The next byte.
pub enum Byte {
    Got(u8),
    End,
    Failed,
    /// As many bytes were taken as may be.
    Full,
}

/// The next line, of which at most one byte more is kept than a line may have.
#[derive(Drop)]
pub enum Next {
    /// A line that ends with a newline.
    Line(Vec<u8>),
    /// A last line without one, which isn't empty.
    Last(Vec<u8>),
    End,
    Failed,
    /// As many bytes were taken as may be.
    Full,
    Memory,
}

/// What is held after a read.
enum Refill {
    Ready,
    End,
    Failed,
}

fn fill<S: Source>(source: &mut S, buffer: &mut Vec<u8>) -> Read
    ensures bytes { ReadTakes (S.left source.old) (S.left source.new) result buffer.new.items }
    ensures end { IsTrue (is_read_end result (vec_len buffer.old)) → IsAtEnd (S.left source.new) }
    ensures ends { S.ends source.new ≡ ends_after result (vec_len buffer.old) (S.ends source.old) }
    ensures faults { S.faults source.old ≤ S.faults source.new }
    ensures cause { result ≡ Read.Failed → Rose (S.faults source.old) (S.faults source.new) }
    ensures len { vec_len buffer.new ≡ vec_len buffer.old }
{
    source.read(buffer.as_mut_slice())
}

/// Keeps a byte of a line, where those before it aren't over the limit.
fn keep(kept: &mut Vec<u8>, byte: u8) -> Result<(), Memory>
    ensures { OnOk result (kept.new.items ≡ with_byte kept.old.items byte) }
{
    if kept.len() <= LINE_LIMIT {
        kept.push(byte)?;
    }
    Ok(())
}

impl Intake {
    /// An intake that reads so many bytes at once.
    pub fn make(alloc: Global, size: usize) -> Result<Intake, Memory>
        requires size { 0 < size }
        ensures pending { IfOk result (λ intake. intake.pending ≡ []) }
        ensures taken { IfOk result (λ intake. intake.taken ≡ 0) }
    {
        let buffer = vec![in alloc; 0u8; size]?;
        Ok(Intake {
            buffer,
            from: 0,
            to: 0,
            taken: 0,
        })
    }

    /// Reads where nothing is held.
    fn refill<S: Source>(&mut self, source: &mut S) -> Refill
        ensures held { Refills self.old (S.left source.old) result self.new (S.left source.new) }
        ensures ends { S.ends source.new ≡ ends_with (is_refill_end result) (S.ends source.old) }
        ensures cause { result ≡ Refill.Failed → Rose (S.faults source.old) (S.faults source.new) }
        ensures faults { S.faults source.old ≤ S.faults source.new }
        ensures taken { self.new.taken ≡ self.old.taken }
    {
        if self.from < self.to {
            return Refill::Ready;
        }
        match fill(source, &mut self.buffer) {
            Read::Failed => Refill::Failed,
            Read::Got(0) => Refill::End,
            Read::Got(count) => {
                self.from = 0;
                self.to = count;
                Refill::Ready
            }
        }
    }

    /// Takes the first byte that is held.
    fn take_byte(&mut self) -> u8
        requires held { 0 < length self.old.pending }
        requires room { self.old.taken < 2 ^ 32 }
        ensures byte { self.old.pending ≡ result ∷ self.new.pending }
        ensures taken { self.new.taken ≡ self.old.taken + 1 }
    {
        let byte = self.buffer[self.from];
        self.from += 1;
        self.taken += 1;
        byte
    }

    /// Takes one byte.
    fn next_byte<S: Source>(&mut self, source: &mut S) -> Byte
        ensures byte { TakesByte self.old (S.left source.old) result self.new (S.left source.new) }
        ensures ends { S.ends source.new ≡ ends_with (is_byte_end result) (S.ends source.old) }
        ensures cause { result ≡ Byte.Failed → Rose (S.faults source.old) (S.faults source.new) }
        ensures faults { S.faults source.old ≤ S.faults source.new }
        ensures limit { self.new.taken ≤ 2 ^ 32 }
    {
        if self.taken == SCRIPT_LIMIT {
            return Byte::Full;
        }
        match self.refill(source) {
            Refill::Ready => Byte::Got(self.take_byte()),
            Refill::End => Byte::End,
            Refill::Failed => Byte::Failed,
        }
    }

    /// Takes one line.
    pub fn next_line<S: Source>(&mut self, alloc: Global, source: &mut S) -> Next
        ensures line { TakesNext self.old (S.left source.old) result self.new (S.left source.new) }
        ensures kept { length (kept_of result) ≤ line_limit + 1 }
        ensures ends { S.ends source.new ≡ ends_with (is_end result) (S.ends source.old) }
        ensures cause { result ≡ Next.Failed → Rose (S.faults source.old) (S.faults source.new) }
        ensures faults { S.faults source.old ≤ S.faults source.new }
        ensures limit { self.new.taken ≤ 2 ^ 32 }
    {
        let _limit = self.taken;
        let mut kept = Vec::new(alloc);
        for _ in 0..SCRIPT_LIMIT + 1 {
            match self.next_byte(source) {
                Byte::Got(b'\n') => return Next::Line(kept),
                Byte::Got(byte) => {
                    if keep(&mut kept, byte).is_err() {
                        return Next::Memory;
                    }
                }
                Byte::End if kept.is_empty() => return Next::End,
                Byte::End => return Next::Last(kept),
                Byte::Failed => return Next::Failed,
                Byte::Full => return Next::Full,
            }
        }
        Next::Full
    }
}
