//! Whole transfers, over single reads and writes.
ghost use Rattle.std.specs.Prelude.{◌≡◌, ◌≢◌, ◌+◌, ℕ, ◌<◌, ◌≤◌, List, [], IfOk, OnErr, OnOk, length, take, true};
ghost use Rattle.std.specs.Prelude.{false, vec_len};
ghost use Rattle.vl_io.specs.Bytes.{AddsPiece, Appends, Consumes, IsAtEnd};
ghost use Rattle.vl_io.specs.Faults.{HasCause, Rose};
ghost use Rattle.vl_io.specs.Lines.{piece_len};

use crate::outside::{Failed, Sink, Source};
use std::alloc::{AllocError, Global};
use std::error::Error;
use std::fmt;

/// Writes the whole piece. After `Failed` a proper prefix of it was written. An empty piece makes no write.
pub fn put_all<K: Sink>(sink: &mut K, piece: &[u8]) -> Result<(), Failed>
    ensures ok { OnOk result (Appends (K.written sink.old) (K.written sink.new) piece.now) }
    ensures err { OnErr result ((n : ℕ) × (n < length piece.now)
        × Appends (K.written sink.old) (K.written sink.new) (take n piece.now)) }
    ensures cause { HasCause (K.faults sink.old) (K.faults sink.new) result }
    ensures idle { piece.now ≡ [] → sink.new ≡ sink.old }
{
    let mut done = 0;
    while done < piece.len() {
        done += sink.write(&piece[done..])?;
    }
    Ok(())
}

/// Why a source was not read to its end.
#[derive(Clone, Copy, Debug, PartialEq, Eq)]
pub enum ReadFault {
    /// The source failed.
    Failed,
    /// More bytes came than are allowed.
    Long,
    /// Memory ran out for the bytes.
    Memory,
}

impl fmt::Display for ReadFault {
    ghost use Rattle.std.specs.Prelude.{Some};
    ghost use Rattle.vl_io.specs.ReadFault.{fault_text};

    ghost output = { λ fault. Some (fault_text fault) };

    fn fmt<W: fmt::Write>(&self, f: &mut fmt::Formatter<W>) -> fmt::Result {
        match self {
            ReadFault::Failed => f.write_str("read fault"),
            ReadFault::Long => f.write_str("input long"),
            ReadFault::Memory => f.write_str("no memory"),
        }
    }
}

impl Error for ReadFault {}

impl From<Failed> for ReadFault {
    ghost use Rattle.vl_io.specs.declared.transfer.ReadFault.TheVariants.{Failed as failed};

    ghost from_gives = { λ _ fault. fault ≡ failed };

    fn from(_: Failed) -> ReadFault {
        ReadFault::Failed
    }
}

impl From<AllocError> for ReadFault {
    ghost use Rattle.vl_io.specs.declared.transfer.ReadFault.TheVariants.{Memory};

    ghost from_gives = { λ _ fault. fault ≡ Memory };

    fn from(_: AllocError) -> ReadFault {
        ReadFault::Memory
    }
}

/// How many bytes a read is offered room for: enough that the calls cost little, and few enough that
/// they stay in the processor's cache.
const PIECE_LEN: usize = 65_536;

/// Room for a piece.
pub(crate) fn piece_buffer(alloc: Global) -> Result<Vec<u8>, AllocError>
    ensures { IfOk result (λ buffer. vec_len buffer ≡ piece_len) }
{
    Ok(vec![in alloc; 0; PIECE_LEN]?)
}

/// Reads one piece, and says whether there may be more. Once as many bytes are there as may be, one more is asked for,
/// to see whether the source has ended. Where memory runs out, nothing was read.
pub(crate) fn read_piece<S: Source>(
    source: &mut S,
    buffer: &mut [u8],
    bytes: &mut Vec<u8>,
    limit: usize,
) -> Result<bool, ReadFault>
    requires room { 0 < length buffer.old }
    requires within { vec_len bytes.old ≤ limit }
    ensures adds { result ≢ Err ReadFault.Long → AddsPiece (S.left source.old) (S.left source.new)
        bytes.old.items bytes.new.items }
    ensures limited { vec_len bytes.new ≤ limit }
    ensures few { vec_len bytes.new ≤ vec_len bytes.old + length buffer.old }
    ensures more { result ≡ Ok true → vec_len bytes.old < vec_len bytes.new }
    ensures end { result ≡ Ok false → IsAtEnd (S.left source.new) × (bytes.new.items ≡ bytes.old.items) }
    ensures err { OnErr result (bytes.new.items ≡ bytes.old.items) }
    ensures long { result ≡ Err ReadFault.Long → (vec_len bytes.old ≡ limit)
        × (more : List ℕ) × Consumes (S.left source.old) (S.left source.new) more × (length more ≡ 1) }
    ensures failed { result ≡ Err ReadFault.Failed → Rose (S.faults source.old) (S.faults source.new) }
    ensures faults { S.faults source.old ≤ S.faults source.new }
{
    let most = buffer.len().min(limit - bytes.len());
    if most == 0 {
        return read_past(source, buffer);
    }
    bytes.reserve(most)?;
    let count = source.read(&mut buffer[..most])?;
    bytes.extend_from_slice(&buffer[..count])?;
    Ok(count > 0)
}

/// Asks for one more byte, which is one too many.
fn read_past<S: Source>(source: &mut S, buffer: &mut [u8]) -> Result<bool, ReadFault>
    requires { 0 < length buffer.old }
    ensures end { OnOk result (IsAtEnd (S.left source.new) × Consumes (S.left source.old) (S.left source.new) []) }
    ensures ok { IfOk result (λ more. more ≡ false) }
    ensures long { result ≡ Err ReadFault.Long → (more : List ℕ)
        × Consumes (S.left source.old) (S.left source.new) more × (length more ≡ 1) }
    ensures failed { result ≡ Err ReadFault.Failed
        → Rose (S.faults source.old) (S.faults source.new) × (S.left source.new ≡ S.left source.old) }
    ensures free { result ≢ Err ReadFault.Memory }
    ensures faults { S.faults source.old ≤ S.faults source.new }
{
    match source.read(&mut buffer[..1])? {
        0 => Ok(false),
        _ => Err(ReadFault::Long),
    }
}
