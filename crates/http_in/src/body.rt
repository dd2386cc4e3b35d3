//! The body of a request.
ghost use Rattle.std.specs.Prelude.{◌≡◌, ◌≢◌, ◌+◌, ◌++◌, ◌<◌, ◌≤◌, ℕ, List, [], IfErr, OnErr, OnOk, Ok, Err};
ghost use Rattle.std.specs.Prelude.{drop, false, length, true, vec_len};
ghost use Rattle.httparse.specs.Ascii.{crlf_bytes};
ghost use Rattle.vl_io.specs.Bytes.{AddsPiece, Consumes, IsAtEnd};
ghost use Rattle.vl_io.specs.Faults.{Rose};
ghost use Rattle.http_in.specs.Chunks.{HasRoom};
ghost use Rattle.http_in.specs.Faults.{IsInEnd, IsNoEnd};
ghost use Rattle.http_said.specs.Limits.{body_limit};
ghost use Rattle.http_in.specs.Lacks.{AddsIf, AsksIf, Lacks, LacksBody, MovesIf};
ghost use Rattle.http_in.specs.Measure.{steps_left};
ghost use Rattle.http_in.specs.Progress.{IsData, IsShort, Stops, StopsAtEnd, Takes, progress_of, stage_with};

use crate::fault::RequestFault;
use crate::line::whole_line;
use crate::stage::Stage;
use crate::take::{PIECE, read_more};
use crate::trailer::whole_trailer;
use crate::window::Window;
use http_said::BODY_LIMIT;
use vl_io::Source;

/// The least room that a read is offered, if that many bytes are missing. Otherwise it is offered twice what the read
/// before gave, so that little memory is cleared for a source that gives little.
const LEAST_ROOM: usize = 4_096;

/// A body that is being read.
#[derive(Drop)]
pub(crate) struct Body {
    pub(crate) stage: Stage,
    pub(crate) bytes: Vec<u8>,
    /// Where the request begins.
    pub(crate) start: u64,
    /// Where the bytes begin that are not used up.
    pub(crate) place: u64,
}

/// Reads on until the body is whole.
pub(crate) fn read_body<S: Source>(
    window: &mut Window,
    body: &mut Body,
    src: &mut S,
) -> Result<(), RequestFault>
    requires room { HasRoom body.old.stage body.old.bytes.items }
    ensures room { HasRoom body.new.stage body.new.bytes.items }
    // Where the rest of the body is there, nothing is asked of the source.
    ensures moved { MovesIf S.left (LacksBody (progress_of body.old window.old)) src.old src.new
        (progress_of body.old window.old) (progress_of body.new window.new) }
    ensures done { OnOk result (body.new.stage ≡ Stage.Done) }
    ensures stops { IfErr result (Stops (progress_of body.new window.new) (IsAtEnd (S.left src.new))) }
    ensures failed { result ≡ Err RequestFault.SourceFault → Rose (S.faults src.old) (S.faults src.new) }
    ensures faults { S.faults src.old ≤ S.faults src.new }
{
    'stages: loop {
        match step(window, body, src) {
            Ok(()) if body.stage == Stage::Done => return Ok(()),
            Ok(()) => {}
            Err(fault) => return Err(fault),
        }
    }
}

/// One step: over the piece of the body that comes next.
fn step<S: Source>(window: &mut Window, body: &mut Body, src: &mut S) -> Result<(), RequestFault>
    requires room { HasRoom body.old.stage body.old.bytes.items }
    ensures room { HasRoom body.new.stage body.new.bytes.items }
    ensures moved { MovesIf S.left (Lacks body.old.stage window.old) src.old src.new
        (progress_of body.old window.old) (progress_of body.new window.new) }
    ensures less { OnOk result (body.new.stage ≢ Stage.Done
        → steps_left body.new.stage body.new.bytes.items < steps_left body.old.stage body.old.bytes.items) }
    ensures stops { IfErr result (Stops (progress_of body.new window.new) (IsAtEnd (S.left src.new))) }
    ensures failed { result ≡ Err RequestFault.SourceFault → Rose (S.faults src.old) (S.faults src.new) }
    ensures faults { S.faults src.old ≤ S.faults src.new }
{
    match body.stage {
        Stage::Rest(left) => data_step(window, body, left, src),
        Stage::Line => line_step(window, body, src),
        Stage::Data(left) => data_step(window, body, left, src),
        Stage::End => end_step(window, body, src),
        Stage::Trailer => trailer_step(window, body, src),
        Stage::Done => Ok(()),
    }
}

/// The step through data of which this many bytes are left: of a body whose length was declared, or of a chunk.
fn data_step<S: Source>(
    window: &mut Window,
    body: &mut Body,
    left: usize,
    src: &mut S,
) -> Result<(), RequestFault>
    requires at { IsData body.old.stage left }
    requires room { HasRoom body.old.stage body.old.bytes.items }
    ensures room { HasRoom body.new.stage body.new.bytes.items }
    ensures moved { MovesIf S.left (Lacks body.old.stage window.old) src.old src.new
        (progress_of body.old window.old) (progress_of body.new window.new) }
    ensures less { OnOk result (body.new.stage ≢ Stage.Done
        → steps_left body.new.stage body.new.bytes.items < steps_left body.old.stage body.old.bytes.items) }
    ensures stops { IfErr result (Stops (progress_of body.new window.new) (IsAtEnd (S.left src.new))) }
    ensures failed { result ≡ Err RequestFault.SourceFault → Rose (S.faults src.old) (S.faults src.new) }
    ensures faults { S.faults src.old ≤ S.faults src.new }
{
    let before = body.bytes.len();
    let taken = take_data(window, &mut body.bytes, body.start, left, src);
    let came = body.bytes.len() - before;
    body.place = body.place.saturating_add(came as u64);
    body.stage = stage_with(body.stage, left - came);
    if came == left {
        return Ok(());
    }
    match taken {
        Ok(()) => unreachable!(),
        Err(fault) => Err(fault),
    }
}

/// Returns the stage in data of which this many bytes are left, where it was in that data before.
fn stage_with(stage: Stage, left: usize) -> Stage
    ensures { result ≡ stage_with stage left }
{
    match stage {
        Stage::Rest(_) if left == 0 => Stage::Done,
        Stage::Rest(_) => Stage::Rest(left),
        Stage::Data(_) if left == 0 => Stage::End,
        Stage::Data(_) => Stage::Data(left),
        Stage::Line => Stage::Line,
        Stage::End => Stage::End,
        Stage::Trailer => Stage::Trailer,
        Stage::Done => Stage::Done,
    }
}

/// Takes this many bytes of data: first what the window has of them, then straight from the source.
fn take_data<S: Source>(
    window: &mut Window,
    bytes: &mut Vec<u8>,
    start: u64,
    left: usize,
    src: &mut S,
) -> Result<(), RequestFault>
    requires { vec_len bytes.old + left ≤ body_limit }
    ensures taken { (piece : List ℕ) × Consumes (S.left src.old) (S.left src.new) piece
        × Takes window.old bytes.old.items window.new bytes.new.items piece
        × AsksIf (length window.old < left) src.old src.new piece }
    ensures ok { OnOk result (vec_len bytes.new ≡ vec_len bytes.old + left) }
    ensures within { vec_len bytes.new ≤ vec_len bytes.old + left }
    ensures short { IfErr result (IsShort start window.new (IsAtEnd (S.left src.new))) }
    ensures failed { result ≡ Err RequestFault.SourceFault → Rose (S.faults src.old) (S.faults src.new) }
    ensures faults { S.faults src.old ≤ S.faults src.new }
{
    let target = bytes.len() + left;
    let count = window.as_slice().len().min(left);
    match bytes.extend_from_slice(&window.as_slice()[..count]) {
        Ok(()) => {}
        Err(_) => return Err(RequestFault::Memory),
    }
    window.use_up(count);
    if count == left {
        return Ok(());
    }
    read_to(bytes, start, target, src)
}

/// Reads on until there are this many bytes, straight to their end.
fn read_to<S: Source>(
    bytes: &mut Vec<u8>,
    start: u64,
    target: usize,
    src: &mut S,
) -> Result<(), RequestFault>
    requires within { vec_len bytes.old ≤ target }
    requires limit { target ≤ body_limit }
    ensures adds { AddsPiece (S.left src.old) (S.left src.new) bytes.old.items bytes.new.items }
    ensures within { vec_len bytes.new ≤ target }
    ensures whole { OnOk result (vec_len bytes.new ≡ target) }
    ensures short { IfErr result (IsShort start [] (IsAtEnd (S.left src.new))) }
    ensures failed { result ≡ Err RequestFault.SourceFault → Rose (S.faults src.old) (S.faults src.new) }
    ensures faults { S.faults src.old ≤ S.faults src.new }
{
    let mut room = LEAST_ROOM;
    'reads: while bytes.len() < target {
        let before = bytes.len();
        match read_more(src, bytes, room.min(target - before)) {
            Ok(true) => {}
            Ok(false) => return Err(RequestFault::Cut { at: start }),
            Err(fault) => return Err(fault),
        }
        room = (2 * (bytes.len() - before)).max(LEAST_ROOM).min(PIECE);
    }
    Ok(())
}

/// The step over a chunk line.
fn line_step<S: Source>(
    window: &mut Window,
    body: &mut Body,
    src: &mut S,
) -> Result<(), RequestFault>
    requires at { body.old.stage ≡ Stage.Line }
    requires room { vec_len body.old.bytes ≤ body_limit }
    ensures room { HasRoom body.new.stage body.new.bytes.items }
    ensures moved { MovesIf S.left (Lacks body.old.stage window.old) src.old src.new
        (progress_of body.old window.old) (progress_of body.new window.new) }
    ensures less { OnOk result (steps_left body.new.stage body.new.bytes.items
        < steps_left body.old.stage body.old.bytes.items) }
    ensures stops { IfErr result (Stops (progress_of body.new window.new) (IsAtEnd (S.left src.new))) }
    ensures failed { result ≡ Err RequestFault.SourceFault → Rose (S.faults src.old) (S.faults src.new) }
    ensures faults { S.faults src.old ≤ S.faults src.new }
{
    let line = match whole_line(window, body.start, body.place, src) {
        Ok(line) => line,
        Err(fault) => return Err(fault),
    };
    if line.size > BODY_LIMIT - body.bytes.len() as u64 {
        return Err(RequestFault::BodyLarge);
    }
    window.use_up(line.len);
    body.place = body.place.saturating_add(line.len as u64);
    body.stage = match line.size {
        0 => Stage::Trailer,
        size => Stage::Data(size as usize),
    };
    Ok(())
}

/// The step over the line end after a chunk's data.
fn end_step<S: Source>(
    window: &mut Window,
    body: &mut Body,
    src: &mut S,
) -> Result<(), RequestFault>
    requires at { body.old.stage ≡ Stage.End }
    requires room { vec_len body.old.bytes ≤ body_limit }
    ensures room { HasRoom body.new.stage body.new.bytes.items }
    ensures moved { MovesIf S.left (Lacks body.old.stage window.old) src.old src.new
        (progress_of body.old window.old) (progress_of body.new window.new) }
    ensures less { OnOk result (steps_left body.new.stage body.new.bytes.items
        < steps_left body.old.stage body.old.bytes.items) }
    ensures stops { IfErr result (Stops (progress_of body.new window.new) (IsAtEnd (S.left src.new))) }
    ensures failed { result ≡ Err RequestFault.SourceFault → Rose (S.faults src.old) (S.faults src.new) }
    ensures faults { S.faults src.old ≤ S.faults src.new }
{
    match line_end(window, body.start, body.place, src) {
        Ok(()) => {
            body.place = body.place.saturating_add(2);
            body.stage = Stage::Line;
            Ok(())
        }
        Err(fault) => Err(fault),
    }
}

/// Reads on until the line end after a chunk's data is whole, and uses it up.
fn line_end<S: Source>(
    window: &mut Window,
    start: u64,
    place: u64,
    src: &mut S,
) -> Result<(), RequestFault>
    ensures ok { OnOk result ((piece : List ℕ) × Consumes (S.left src.old) (S.left src.new) piece
        × (window.old ++ piece ≡ crlf_bytes ++ window.new) × AsksIf (length window.old < 2) src.old src.new piece) }
    ensures err { OnErr result (AddsIf S.left (length window.old < 2) src.old src.new window.old window.new) }
    ensures stops { IfErr result (StopsAtEnd start place window.new (IsAtEnd (S.left src.new))) }
    ensures failed { result ≡ Err RequestFault.SourceFault → Rose (S.faults src.old) (S.faults src.new) }
    ensures faults { S.faults src.old ≤ S.faults src.new }
{
    'reads: loop {
        match line_end_in(window.as_slice(), place) {
            Ok(true) => {
                window.use_up(2);
                return Ok(());
            }
            Ok(false) => {}
            Err(fault) => return Err(fault),
        }
        match window.fill(src) {
            Ok(true) => {}
            Ok(false) => return Err(RequestFault::Cut { at: start }),
            Err(fault) => return Err(fault),
        }
    }
}

/// Returns whether the bytes begin with a line end. Without one there are too few.
fn line_end_in(bytes: &[u8], place: u64) -> Result<bool, RequestFault>
    ensures whole { result ≡ Ok true → bytes.now ≡ crlf_bytes ++ drop 2 bytes.now }
    ensures open { result ≡ Ok false → IsInEnd bytes.now }
    ensures bad { IfErr result (λ fault. (fault ≡ RequestFault.BadChunk place) × IsNoEnd bytes.now) }
{
    match bytes {
        [b'\r', b'\n', ..] => Ok(true),
        [] | [b'\r'] => Ok(false),
        _ => Err(RequestFault::BadChunk { at: place }),
    }
}

/// The step over the trailer section.
fn trailer_step<S: Source>(
    window: &mut Window,
    body: &mut Body,
    src: &mut S,
) -> Result<(), RequestFault>
    requires at { body.old.stage ≡ Stage.Trailer }
    requires room { vec_len body.old.bytes ≤ body_limit }
    ensures room { HasRoom body.new.stage body.new.bytes.items }
    ensures moved { MovesIf S.left (Lacks body.old.stage window.old) src.old src.new
        (progress_of body.old window.old) (progress_of body.new window.new) }
    ensures done { OnOk result (body.new.stage ≡ Stage.Done) }
    ensures stops { IfErr result (Stops (progress_of body.new window.new) (IsAtEnd (S.left src.new))) }
    ensures failed { result ≡ Err RequestFault.SourceFault → Rose (S.faults src.old) (S.faults src.new) }
    ensures faults { S.faults src.old ≤ S.faults src.new }
{
    let len = match whole_trailer(window, body.start, body.place, src) {
        Ok(len) => len,
        Err(fault) => return Err(fault),
    };
    window.use_up(len);
    body.place = body.place.saturating_add(len as u64);
    body.stage = Stage::Done;
    Ok(())
}
