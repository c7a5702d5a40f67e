//! Where bytes come from.

ghost use Rattle.std.specs.Prelude.{◌≡◌, ◌≢◌, ℕ, ◌+◌, ◌<◌, ◌≤◌, List, ◌++◌, length, take, vec_len, is_some, Option, Some, Err, IfOk, IfErr, IfSome, OnOk, OnErr, IsErrOf};
ghost use Rattle.std.specs.Io.KnownBytes.{prepend_known, IsAtEnd};
ghost use Rattle.host_io.specs.Faults.{Faulted};
ghost use Rattle.host_io.specs.ReadEnd.{EndsEarly, read_end_text};
ghost use Rattle.host_io.specs.declared.source.ReadEnd.TheVariants.{Fault, NoMemory as WantOfMemory};

use crate::failed::Failed;
use ignite_types::NoMemory;
use ignite_types::limits::TEXT_BYTES;
use std::alloc::{AllocError, Global};
use std::fmt;

/// Something that bytes are taken from, piece by piece.
///
/// `left` is the bytes that are still to come, where the source tells them, and `faults` counts its
/// faults. The count stands still at 2^64 - 1.
pub trait Source {
    ghost left: { Self → Option (List ℕ) };

    ghost faults: { Self → ℕ };

    /// Puts bytes at the start of the buffer and answers how many. For a buffer that is not empty, 0 is
    /// the end. What stands behind these bytes in the buffer is left open.
    fn take(&mut self, buf: &mut [u8]) -> Result<usize, Failed>
        ensures fits { IfOk result (λ n. n ≤ length buf.new) }

        // What was left is the first n bytes of the buffer, and then what is left now.
        ensures taken { IfOk result (λ n. left self.old ≡ prepend_known (take n buf.new) (left self.new)) }
        ensures end { IfOk result (λ n. n ≡ 0 → 0 < length buf.new → IsAtEnd (left self.new)) }
        ensures unchanged { OnErr result (left self.new ≡ left self.old) }
        ensures failed { OnErr result (Faulted (faults self.old) (faults self.new)) }
        ensures counts { faults self.old ≤ faults self.new }
        ensures tells { is_some (left self.new) ≡ is_some (left self.old) };
}

/// Why a read of all bytes gave none.
#[derive(Clone, Copy, Debug, PartialEq, Eq)]
pub enum ReadEnd {
    /// The source failed.
    Fault,
    /// One byte more than the limit came.
    TooLong,
    /// No memory was left for the bytes.
    NoMemory,
}

impl fmt::Display for ReadEnd {
    ghost output = { λ end. Some (read_end_text end) };

    fn fmt<W: fmt::Write>(&self, f: &mut fmt::Formatter<W>) -> fmt::Result {
        match self {
            ReadEnd::Fault => write!(f, "a read failed"),
            ReadEnd::TooLong => write!(f, "more bytes came than are allowed"),
            ReadEnd::NoMemory => write!(f, "no memory is left"),
        }
    }
}

impl std::error::Error for ReadEnd {}

impl From<Failed> for ReadEnd {
    ghost from_gives = { λ _ end. end ≡ Fault };

    fn from(_: Failed) -> ReadEnd {
        ReadEnd::Fault
    }
}

impl From<NoMemory> for ReadEnd {
    ghost from_gives = { λ _ end. end ≡ WantOfMemory };

    fn from(_: NoMemory) -> ReadEnd {
        ReadEnd::NoMemory
    }
}

impl From<AllocError> for ReadEnd {
    ghost from_gives = { λ _ end. end ≡ WantOfMemory };

    fn from(_: AllocError) -> ReadEnd {
        ReadEnd::NoMemory
    }
}

/// How many bytes one call of `take` is asked for, at most.
const CHUNK: usize = 8192;

/// The largest limit that `read_up_to` takes, in bytes.
pub const MAX_LIMIT: usize = 67_108_864;

/// The limit of `read_all`, in bytes.
pub const READ_ALL_LIMIT: usize = TEXT_BYTES;

/// A buffer for one call of `take`.
fn make_chunk(alloc: Global) -> Result<Vec<u8>, AllocError>
    ensures { IfOk result (λ chunk. vec_len chunk ≡ CHUNK) }
{
    let mut chunk = Vec::new(alloc);
    chunk.resize(CHUNK, 0)?;
    Ok(chunk)
}

/// Takes at most `room` bytes, by one call of `take` into the chunk, and appends them. After an error
/// nothing was taken.
fn append_piece<S: Source>(
    source: &mut S,
    chunk: &mut [u8],
    room: usize,
    bytes: &mut Vec<u8>,
) -> Result<usize, ReadEnd>
    requires { room ≤ length chunk.old }
    ensures fits { IfOk result (λ n. n ≤ room) }
    ensures taken { IfOk result (λ n. S.left source.old ≡ prepend_known (take n chunk.new) (S.left source.new)) }
    ensures appended { IfOk result (λ n. bytes.new.items ≡ bytes.old.items ++ take n chunk.new) }
    ensures len { IfOk result (λ n. vec_len bytes.new ≡ vec_len bytes.old + n) }
    ensures end { IfOk result (λ n. n ≡ 0 → 0 < room → IsAtEnd (S.left source.new)) }
    ensures unchanged { OnErr result (S.left source.new ≡ S.left source.old) }
    ensures kept { OnErr result (bytes.new.items ≡ bytes.old.items) }
    ensures short { result ≢ Err ReadEnd.TooLong }
    ensures fault { IsErrOf result ReadEnd.Fault → Faulted (S.faults source.old) (S.faults source.new) }
    ensures counts { S.faults source.old ≤ S.faults source.new }
    ensures tells { is_some (S.left source.new) ≡ is_some (S.left source.old) }
{
    bytes.reserve(room)?;
    let count = source.take(&mut chunk[..room])?;
    // There is room for them, so this takes no memory.
    bytes.extend_from_slice(&chunk[..count]).unwrap();
    Ok(count)
}

/// All bytes that are left, if they are at most `limit`.
///
/// It is `Fault` where the source fails, `TooLong` where one byte more than `limit` came, past which it
/// takes none, and `NoMemory` where no memory is left. After an error the bytes that were taken are lost.
pub fn read_up_to<S: Source>(
    alloc: Global,
    source: &mut S,
    limit: usize,
) -> Result<Vec<u8>, ReadEnd>
    requires positive { 0 < limit }
    requires bounded { limit ≤ MAX_LIMIT }
    ensures all { IfOk result (λ bytes. IfSome (S.left source.old) (λ before. bytes.items ≡ before)) }
    ensures end { OnOk result (IsAtEnd (S.left source.new)) }
    ensures within { IfOk result (λ bytes. vec_len bytes ≤ limit) }

    // It is TooLong exactly where `limit + 1` bytes came.
    ensures early { IfErr result (λ end. EndsEarly end limit (S.left source.old) (S.left source.new)) }
    ensures too_long { IsErrOf result ReadEnd.TooLong → IfSome (S.left source.old) (λ before. limit < length before) }
    ensures fault { IsErrOf result ReadEnd.Fault → Faulted (S.faults source.old) (S.faults source.new) }
    ensures counts { S.faults source.old ≤ S.faults source.new }
    ensures tells { is_some (S.left source.new) ≡ is_some (S.left source.old) }
{
    let mut chunk = make_chunk(alloc)?;
    let mut bytes = Vec::new(alloc);
    loop {
        let room = CHUNK.min(limit + 1 - bytes.len());
        let count = append_piece(source, chunk.as_mut_slice(), room, &mut bytes)?;
        if count == 0 {
            return Ok(bytes);
        }
        if bytes.len() > limit {
            return Err(ReadEnd::TooLong);
        }
    }
}

/// All bytes that are left, if they are at most 1,048,576. It is `read_up_to` at this limit, with the same
/// errors.
pub fn read_all<S: Source>(alloc: Global, source: &mut S) -> Result<Vec<u8>, ReadEnd>
    ensures all { IfOk result (λ bytes. IfSome (S.left source.old) (λ before. bytes.items ≡ before)) }
    ensures end { OnOk result (IsAtEnd (S.left source.new)) }
    ensures within { IfOk result (λ bytes. vec_len bytes ≤ READ_ALL_LIMIT) }

    // It is TooLong exactly where one byte more than the limit came.
    ensures early { IfErr result (λ end. EndsEarly end READ_ALL_LIMIT (S.left source.old) (S.left source.new)) }
    ensures too_long { IsErrOf result ReadEnd.TooLong → IfSome (S.left source.old) (λ before. READ_ALL_LIMIT < length before) }
    ensures fault { IsErrOf result ReadEnd.Fault → Faulted (S.faults source.old) (S.faults source.new) }
    ensures counts { S.faults source.old ≤ S.faults source.new }
    ensures tells { is_some (S.left source.new) ≡ is_some (S.left source.old) }
{
    read_up_to(alloc, source, READ_ALL_LIMIT)
}
