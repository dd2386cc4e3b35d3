//! The readers of values that have one spelling.

ghost use Rattle.std.specs.Prelude.{◌≡◌, List, Some, IfOk, IfErr, IsTrue, Ok};
ghost use Rattle.byte_format.specs.Answers.{AnswersAs, IsPlaceOf};
ghost use Rattle.byte_format.specs.Format.{front, whole};
ghost use Rattle.byte_format.specs.Gives.{Gives};
ghost use Rattle.byte_format.specs.Spelling.{reading};
ghost use Rattle.byte_format.specs.Windows.{inside};

use crate::fault::Fault;
use crate::spelled::Spelled;
use crate::{Stop, first_difference};
use std::alloc::Global;

/// Reads the value that these bytes spell.
///
/// Bytes that spell no value are damaged at their first item that is incomplete or malformed. If all items are good,
/// they are damaged at the first that differs from the spelling of the value, or at 0 if the items have no value.
pub fn read_exactly<S: Spelled>(
    alloc: Global,
    context: S::Context,
    bytes: &[u8],
) -> Result<S::Output, Fault>
    ensures found { IfOk result (λ output. S.writing context (S.meaning output) ≡ Some bytes.now) }
    ensures only { (x : S.Meaning) → S.writing context x ≡ Some bytes.now
        → AnswersAs S.meaning bytes.now result (Ok x) }
    ensures damaged { IfErr result (λ fault. IsPlaceOf fault (S.format context) (S.writing context) bytes.now) }
    ensures exact { AnswersAs S.meaning bytes.now result
        (reading (S.format context) (S.writing context) bytes.now) }
{
    match read::<S>(alloc, context, bytes) {
        Ok(output) => Ok(output),
        Err(Stop::Memory) => Err(Fault::Memory),
        Err(Stop::Left(left)) => Err(Fault::Damaged {
            at: bytes.len() - left,
        }),
    }
}

fn read<S: Spelled>(alloc: Global, context: S::Context, bytes: &[u8]) -> Result<S::Output, Stop>
    ensures { Gives S.meaning result (reading (S.format context) (S.writing context) bytes.now) }
{
    let items = take_whole::<S>(alloc, context, bytes)?;
    let output = read_items::<S>(alloc, context, bytes, items)?;
    Ok(output)
}

/// Reads the items that all of the bytes are.
pub fn take_whole<S: Spelled>(alloc: Global, context: S::Context, bytes: &[u8]) -> Result<S, Stop>
    ensures items { Gives S.meant result (whole (S.format context) bytes.now) }
    ensures read { IfOk result (S.was_read context) }
{
    let (items, rest) = S::take(alloc, context, bytes)?;
    if !rest.is_empty() {
        return Err(Stop::Left(rest.len()));
    }
    Ok(items)
}

/// Reads items that have exactly the next `length` bytes, and returns them and the bytes after them.
pub fn take_inside<'a, S: Spelled>(
    alloc: Global,
    context: S::Context,
    length: usize,
    bytes: &'a [u8],
) -> Result<(S, &'a [u8]), Stop>
    ensures items { Gives (λ x. (S.meant x.0, x.1.now)) result (front (inside length (S.format context)) bytes.now) }
    ensures read { IfOk result (λ x. S.was_read context x.0) }
{
    if bytes.len() < length {
        take_whole::<S>(alloc, context, bytes)?;
        return Err(Stop::Left(0));
    }
    let (window, rest) = bytes.split_at(length);
    match take_whole::<S>(alloc, context, window) {
        Ok(items) => Ok((items, rest)),
        Err(Stop::Memory) => Err(Stop::Memory),
        Err(Stop::Left(left)) => Err(Stop::Left(left + rest.len())),
    }
}

/// Reads the value whose items were read of these bytes.
pub fn read_items<S: Spelled>(
    alloc: Global,
    context: S::Context,
    bytes: &[u8],
    items: S,
) -> Result<S::Output, Stop>
    requires items { whole (S.format context) bytes.now ≡ Ok (S.meant items) }
    requires read { S.was_read context items }
    ensures { Gives S.meaning result (reading (S.format context) (S.writing context) bytes.now) }
{
    let Some(output) = items.make(alloc, context)? else {
        return Err(Stop::Left(bytes.len()));
    };
    let mut spelling = Vec::with_capacity(alloc, bytes.len())?;
    S::put(&output, context, &mut spelling)?;
    compared::<S>(alloc, context, bytes, output, spelling.as_slice())
}

/// The value, if this is its spelling. Otherwise the damaged item is the one that is incomplete if the bytes are cut
/// before the first byte that differs.
fn compared<S: Spelled>(
    alloc: Global,
    context: S::Context,
    bytes: &[u8],
    output: S::Output,
    spelling: &[u8],
) -> Result<S::Output, Stop>
    requires items { whole (S.format context) bytes.now ≡ Ok (S.meaning output) }
    requires written { S.writing context (S.meaning output) ≡ Some spelling.now }
    ensures { Gives S.meaning result (reading (S.format context) (S.writing context) bytes.now) }
{
    if are_same(bytes, spelling) {
        return Ok(output);
    }
    match first_difference(bytes, spelling) {
        None => Ok(output),
        Some(d) => match take_whole::<S>(alloc, context, &bytes[..d]) {
            Ok(_) => unreachable!(),
            Err(Stop::Memory) => Err(Stop::Memory),
            Err(Stop::Left(left)) => Err(Stop::Left(left + (bytes.len() - d))),
        },
    }
}

fn are_same(bytes: &[u8], others: &[u8]) -> bool
    ensures { IsTrue result → bytes.now ≡ others.now }
{
    bytes == others
}
