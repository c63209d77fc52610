ghost use Rattle.std.specs.Prelude.{◌≡◌, ◌<◌, ◌≤◌, length, IsTrue, IfOk, vec_len};
ghost use Rattle.login_base.specs.Outside.{Rose, ReadTakes, IsAtEnd, is_end as is_read_end, ends_after};
ghost use Rattle.login_desk.specs.Intake.{ends_with};
ghost use Rattle.login_desk.specs.Whole.{TakesWhole, TakesPart, is_whole_end, is_part_end, whole_limit};

use login_base::{Memory, Read, Source};
use std::alloc::Global;

/// So many bytes are kept at most.
pub const WHOLE_LIMIT: usize = 4_194_304;

/// So many bytes are read at once.
const BUFFER: usize = 65_536;

/// What a source gave that is read whole.
#[derive(Drop)]
pub enum Whole {
    /// All of its bytes.
    Bytes(Vec<u8>),
    /// More bytes than are kept.
    TooLong,
    Failed,
    Memory,
}

/// How one read came out.
#[derive(Clone, Copy, Debug, PartialEq, Eq)]
enum Part {
    Kept,
    End,
    TooLong,
    Failed,
    Memory,
}

fn make_buffer(alloc: Global, size: usize) -> Result<Vec<u8>, Memory>
    ensures { IfOk result (λ buffer. vec_len buffer ≡ size) }
{
    Ok(vec![in alloc; 0u8; size]?)
}

fn fill<S: Source>(source: &mut S, buffer: &mut Vec<u8>) -> Read
    ensures bytes { ReadTakes (S.left source.old) (S.left source.new) result buffer.new.items }
    ensures end { IsTrue (is_read_end result (vec_len buffer.old)) → IsAtEnd (S.left source.new) }
    ensures ends { S.ends source.new ≡ ends_after result (vec_len buffer.old) (S.ends source.old) }
    ensures faults { S.faults source.old ≤ S.faults source.new }
    ensures cause { result ≡ Read.Failed → Rose (S.faults source.old) (S.faults source.new) }
    ensures len { vec_len buffer.new ≡ vec_len buffer.old }
{
    source.read(buffer.as_mut_slice())
}

/// Reads once, and keeps what was read, where it is within the limit.
fn take_part<S: Source>(source: &mut S, buffer: &mut Vec<u8>, kept: &mut Vec<u8>) -> Part
    requires buffer { 0 < vec_len buffer.old }
    requires kept { length kept.old.items ≤ whole_limit }
    ensures part { TakesPart kept.old.items (S.left source.old) result kept.new.items (S.left source.new) }
    ensures ends { S.ends source.new ≡ ends_with (is_part_end result) (S.ends source.old) }
    ensures cause { result ≡ Part.Failed → Rose (S.faults source.old) (S.faults source.new) }
    ensures faults { S.faults source.old ≤ S.faults source.new }
    ensures len { vec_len buffer.new ≡ vec_len buffer.old }
{
    match fill(source, buffer) {
        Read::Failed => Part::Failed,
        Read::Got(0) => Part::End,
        Read::Got(count) if count > WHOLE_LIMIT - kept.len() => Part::TooLong,
        Read::Got(count) => match kept.extend_from_slice(&buffer[..count]) {
            Ok(()) => Part::Kept,
            Err(_) => Part::Memory,
        },
    }
}

/// Reads a source to its end.
pub fn take_whole<S: Source>(alloc: Global, source: &mut S) -> Whole
    ensures bytes { TakesWhole (S.left source.old) result (S.left source.new) }
    ensures ends { S.ends source.new ≡ ends_with (is_whole_end result) (S.ends source.old) }
    ensures cause { result ≡ Whole.Failed → Rose (S.faults source.old) (S.faults source.new) }
    ensures faults { S.faults source.old ≤ S.faults source.new }
{
    let Ok(mut buffer) = make_buffer(alloc, BUFFER) else {
        return Whole::Memory;
    };
    let mut kept = Vec::new(alloc);
    for _ in 0..WHOLE_LIMIT + 1 {
        match take_part(source, &mut buffer, &mut kept) {
            Part::Kept => {}
            Part::End => return Whole::Bytes(kept),
            Part::TooLong => return Whole::TooLong,
            Part::Failed => return Whole::Failed,
            Part::Memory => return Whole::Memory,
        }
    }
    Whole::TooLong
}
