//! One read.
ghost use Rattle.std.specs.Prelude.{◌≡◌, ◌+◌, ◌^◌, ◌≤◌, ◌<◌, OnErr, IfErr, Ok, Err, true, false, length, vec_len};
ghost use Rattle.vl_io.specs.Bytes.{AddsPiece, IsAtEnd};
ghost use Rattle.vl_io.specs.Faults.{Rose};
ghost use Rattle.http_in.specs.Progress.{IsOutside};

use crate::fault::RequestFault;
use vl_io::Source;

/// How many bytes one read gives at most.
pub(crate) const PIECE: usize = 65_536;

/// Reads once into `piece`, which gets its room at the first call, and appends what came. Says whether there may be
/// more.
pub(crate) fn read_piece<S: Source>(
    src: &mut S,
    piece: &mut Vec<u8>,
    bytes: &mut Vec<u8>,
) -> Result<bool, RequestFault>
    ensures adds { AddsPiece (S.left src.old) (S.left src.new) bytes.old.items bytes.new.items }
    ensures more { result ≡ Ok true → vec_len bytes.old < vec_len bytes.new }
    ensures end { result ≡ Ok false → IsAtEnd (S.left src.new) × (bytes.new.items ≡ bytes.old.items) }
    ensures err { OnErr result (bytes.new.items ≡ bytes.old.items) }
    ensures outside { IfErr result IsOutside }
    ensures failed { result ≡ Err RequestFault.SourceFault → Rose (S.faults src.old) (S.faults src.new) }
    ensures faults { S.faults src.old ≤ S.faults src.new }
{
    if piece.is_empty() {
        piece.resize(PIECE, 0)?;
    }
    take_piece(src, piece.as_mut_slice(), bytes)
}

/// Reads once into the buffer, and appends what came. Where memory runs out, nothing was read.
fn take_piece<S: Source>(
    src: &mut S,
    buffer: &mut [u8],
    bytes: &mut Vec<u8>,
) -> Result<bool, RequestFault>
    requires { 0 < length buffer.old }
    ensures adds { AddsPiece (S.left src.old) (S.left src.new) bytes.old.items bytes.new.items }
    ensures more { result ≡ Ok true → vec_len bytes.old < vec_len bytes.new }
    ensures end { result ≡ Ok false → IsAtEnd (S.left src.new) × (bytes.new.items ≡ bytes.old.items) }
    ensures err { OnErr result (bytes.new.items ≡ bytes.old.items) }
    ensures outside { IfErr result IsOutside }
    ensures failed { result ≡ Err RequestFault.SourceFault → Rose (S.faults src.old) (S.faults src.new) }
    ensures faults { S.faults src.old ≤ S.faults src.new }
{
    bytes.reserve(buffer.len())?;
    let count = src.read(buffer)?;
    bytes.extend_from_slice(&buffer[..count])?;
    Ok(count > 0)
}

/// Reads at most this many bytes, once, straight to the end of the list, and says whether there may be more.
pub(crate) fn read_more<S: Source>(
    src: &mut S,
    bytes: &mut Vec<u8>,
    most: usize,
) -> Result<bool, RequestFault>
    requires some { 0 < most }
    requires room { vec_len bytes.old + most < 2 ^ 62 }
    ensures adds { AddsPiece (S.left src.old) (S.left src.new) bytes.old.items bytes.new.items }
    ensures within { vec_len bytes.new ≤ vec_len bytes.old + most }
    ensures more { result ≡ Ok true → vec_len bytes.old < vec_len bytes.new }
    ensures end { result ≡ Ok false → IsAtEnd (S.left src.new) × (bytes.new.items ≡ bytes.old.items) }
    ensures err { OnErr result (bytes.new.items ≡ bytes.old.items) }
    ensures outside { IfErr result IsOutside }
    ensures failed { result ≡ Err RequestFault.SourceFault → Rose (S.faults src.old) (S.faults src.new) }
    ensures faults { S.faults src.old ≤ S.faults src.new }
{
    let have = bytes.len();
    bytes.resize(have + most, 0)?;
    let read = src.read(&mut bytes[have..]);
    match read {
        Ok(count) => {
            bytes.truncate(have + count);
            Ok(count > 0)
        }
        Err(_) => {
            bytes.truncate(have);
            Err(RequestFault::SourceFault)
        }
    }
}
