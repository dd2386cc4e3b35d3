//! Reading a source in groups of lines.
ghost use Rattle.std.specs.Prelude.{◌≡◌, ◌≢◌, ℕ, ◌+◌, ◌++◌, ◌-◌, ◌<◌, ◌≤◌, List, [], IfOk, IfErr, OnOk, OnErr};
ghost use Rattle.std.specs.Prelude.{length, take, true, false, vec_len, count_by, max};
ghost use Rattle.vl_io.specs.Bytes.{AddsPiece, Consumes, IsAtEnd};
ghost use Rattle.vl_io.specs.Faults.{Rose};
ghost use Rattle.vl_io.specs.Lines.{Advances, AreFewer, AreLines, FallsShort, IsGroup, IsLinesEnd, IsOver, IsTooLong};
ghost use Rattle.vl_io.specs.Lines.{is_feed, piece_len};

use crate::outside::Source;
use crate::transfer::{ReadFault, piece_buffer, read_piece};
use memchr::memchr;
use std::alloc::{AllocError, Global};
use std::marker::Model;

/// Reads a source in groups of this many lines, in large pieces. The last group has what is left.
#[derive(Drop)]
pub struct GroupReader {
    lines: usize,
    limit: usize,
    passed: usize,
    /// The group, and what was read after it.
    bytes: Vec<u8>,
    /// Where the group ends.
    end: usize,
    ended: bool,
    piece: Vec<u8>,
}

impl Model for GroupReader {
    ghost use Rattle.std.specs.Prelude.{◌≡◌, ◌+◌, ◌<◌, ◌≤◌, take, drop, true, vec_len};
    ghost use Rattle.vl_io.specs.Lines.{Reading, piece_len};

    ghost Value = { Reading };

    ghost view = { λ r. record {
      lines = r.lines;
      limit = r.limit;
      passed = r.passed;
      group = take r.end r.bytes.items;
      ahead = drop r.end r.bytes.items;
      ended = r.ended;
    } };

    ghost invariant = { λ r. (0 < r.lines) × (vec_len r.piece ≡ piece_len) × (r.end ≤ vec_len r.bytes)
        × (r.passed + vec_len r.bytes ≤ r.limit) × (r.ended ≡ true → r.end ≡ vec_len r.bytes) };
}

impl GroupReader {
    /// Returns a reader that has read nothing yet. It gives groups of this many lines, and reads no more than `limit`
    /// bytes.
    pub fn of(alloc: Global, lines: usize, limit: usize) -> Result<GroupReader, AllocError>
        requires { 0 < lines }
        ensures { IfOk result (λ reader. reader ≡ record {
          lines = lines;
          limit = limit;
          passed = 0;
          group = [];
          ahead = [];
          ended = false;
        }) }
    {
        Ok(GroupReader {
            lines,
            limit,
            passed: 0,
            bytes: Vec::new(alloc),
            end: 0,
            ended: false,
            piece: piece_buffer(alloc)?,
        })
    }

    /// Returns the group that was read last, with its line feeds. There is none before the first call of `advance`.
    pub fn group(&self) -> &[u8]
        ensures { result.now ≡ self.now.group }
    {
        &self.bytes[..self.end]
    }

    /// Goes on to the next group, and says whether there is one. After an error no clause says what is in the reader.
    pub fn advance<S: Source>(&mut self, source: &mut S) -> Result<bool, ReadFault>
        ensures read { OnOk result ((piece : List ℕ) × Consumes (S.left source.old) (S.left source.new) piece
            × Advances self.old self.new piece) }
        ensures group { result ≡ Ok true → IsGroup self.new }
        ensures over { result ≡ Ok false → IsOver self.new }

        // No more than one piece was read after the group.
        ensures ahead { OnOk result (length self.new.ahead ≤ max (length self.old.ahead) piece_len) }

        // The source is at its end, and is not asked again.
        ensures ended { OnOk result (self.old.ended ≡ false → self.new.ended ≡ true
            → IsAtEnd (S.left source.new) × (self.new.ahead ≡ [])) }
        ensures idle { self.old.ended ≡ true → (source.new ≡ source.old) × (result ≡ Ok false) }

        // An error comes only where there is no whole group.
        ensures long { result ≡ Err ReadFault.Long → IsTooLong self.old (S.left source.old) (S.left source.new) }
        ensures short { OnErr result (result ≢ Err ReadFault.Long
            → FallsShort self.old (S.left source.old) (S.left source.new)) }
        ensures failed { result ≡ Err ReadFault.Failed → Rose (S.faults source.old) (S.faults source.new) }
        ensures faults { S.faults source.old ≤ S.faults source.new }
    {
        let left = self.bytes.len() - self.end;
        self.passed += self.end;
        self.bytes.copy_within(self.end.., 0);
        self.bytes.truncate(left);
        self.end = 0;
        if self.ended {
            return Ok(false);
        }
        let most = self.limit - self.passed;
        let place = read_lines(
            source,
            self.piece.as_mut_slice(),
            &mut self.bytes,
            self.lines,
            most,
        )?;
        match place {
            Some(end) => self.end = end,
            None => {
                self.ended = true;
                self.end = self.bytes.len();
            }
        }
        Ok(self.end > 0)
    }
}

/// Reads until there are this many lines, and says where they end. Where the source ends before, the answer is `None`.
fn read_lines<S: Source>(
    source: &mut S,
    piece: &mut [u8],
    bytes: &mut Vec<u8>,
    lines: usize,
    limit: usize,
) -> Result<Option<usize>, ReadFault>
    requires some { 0 < lines }
    requires room { 0 < length piece.old }
    requires within { vec_len bytes.old ≤ limit }
    ensures adds { result ≢ Err ReadFault.Long → AddsPiece (S.left source.old) (S.left source.new)
        bytes.old.items bytes.new.items }
    ensures limited { vec_len bytes.new ≤ limit }
    ensures place { IfOk result (λ place. IsLinesEnd lines (max (vec_len bytes.old) (length piece.old))
        bytes.new.items (S.left source.new) place) }
    ensures fewer { OnErr result (AreFewer lines bytes.new.items) }
    ensures long { result ≡ Err ReadFault.Long → (vec_len bytes.new ≡ limit) × (piece : List ℕ) × (more : List ℕ)
        × Consumes (S.left source.old) (S.left source.new) (piece ++ more)
        × (bytes.new.items ≡ bytes.old.items ++ piece) × (length more ≡ 1) }
    ensures failed { result ≡ Err ReadFault.Failed
        → Rose (S.faults source.old) (S.faults source.new) }
    ensures faults { S.faults source.old ≤ S.faults source.new }
{
    let mut seen = 0;
    let mut missing = lines;
    'pieces: loop {
        match lines_end(&bytes[seen..], missing) {
            Ok(end) => return Ok(Some(seen + end)),
            Err(fewer) => missing = fewer,
        }
        seen = bytes.len();
        if !read_piece(source, piece, bytes, limit)? {
            return Ok(None);
        }
    }
}

/// Returns where this many lines end, or how many are missing.
fn lines_end(bytes: &[u8], lines: usize) -> Result<usize, usize>
    requires { 0 < lines }
    ensures ok { IfOk result (λ end. (end ≤ length bytes.now) × AreLines lines (take end bytes.now)) }
    ensures err { IfErr result (λ missing. (0 < missing) × (count_by is_feed bytes.now + missing ≡ lines)) }
{
    let mut end = 0;
    let mut missing = lines;
    while missing > 0 {
        let Some(place) = memchr(b'\n', &bytes[end..]) else {
            return Err(missing);
        };
        end += place + 1;
        missing -= 1;
    }
    Ok(end)
}
