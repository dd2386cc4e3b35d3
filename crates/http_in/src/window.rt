//! The bytes that were taken and not used up.
ghost use Rattle.std.specs.Prelude.{◌≡◌, ◌<◌, ◌≤◌, OnErr, IfErr, Ok, Err, [], drop, length, true, false};
ghost use Rattle.vl_io.specs.Bytes.{AddsPiece, IsAtEnd};
ghost use Rattle.vl_io.specs.Faults.{Rose};
ghost use Rattle.http_in.specs.Lacks.{Awaited, LacksAwaited};
ghost use Rattle.http_in.specs.Progress.{IsOutside};

use crate::fault::RequestFault;
use crate::take::read_piece;
use std::alloc::Global;
use std::marker::Model;
use vl_io::Source;

/// The bytes that were taken and not used up.
#[derive(Drop)]
pub(crate) struct Window {
    bytes: Vec<u8>,
    from: usize,
    /// Room for what one read gives.
    piece: Vec<u8>,
}

impl Model for Window {
    ghost use Rattle.std.specs.Prelude.{ℕ, ◌≤◌, List, drop, vec_len};

    ghost Value = { List ℕ };

    ghost view = { λ w. drop w.from w.bytes.items };

    ghost invariant = { λ w. w.from ≤ vec_len w.bytes };
}

impl Window {
    /// No bytes. This allocates nothing.
    pub(crate) fn new(alloc: Global) -> Window
        ensures { result ≡ [] }
    {
        Window {
            bytes: Vec::new(alloc),
            from: 0,
            piece: Vec::new(alloc),
        }
    }

    pub(crate) fn as_slice(&self) -> &[u8]
        ensures { result.now ≡ self.now }
    {
        &self.bytes[self.from..]
    }

    /// Uses this many bytes up.
    pub(crate) fn use_up(&mut self, count: usize)
        requires { count ≤ length self.old }
        ensures { self.new ≡ drop count self.old }
    {
        self.from += count;
    }

    /// Reads once, and says whether there may be more. What is awaited is not there, so that nothing is asked of the
    /// source that no request needs.
    pub(crate) fn fill<S: Source>(&mut self, src: &mut S) -> Result<bool, RequestFault>
        ghost awaited: { Awaited }
        requires lacks { LacksAwaited awaited self.old }
        ensures adds { AddsPiece (S.left src.old) (S.left src.new) self.old self.new }
        ensures more { result ≡ Ok true → length self.old < length self.new }
        ensures end { result ≡ Ok false → IsAtEnd (S.left src.new) × (self.new ≡ self.old) }
        ensures err { OnErr result (self.new ≡ self.old) }
        ensures outside { IfErr result IsOutside }
        ensures failed { result ≡ Err RequestFault.SourceFault → Rose (S.faults src.old) (S.faults src.new) }
        ensures faults { S.faults src.old ≤ S.faults src.new }
    {
        drop_front(&mut self.bytes, self.from);
        self.from = 0;
        read_piece(src, &mut self.piece, &mut self.bytes)
    }
}

/// Drops this many bytes at the front.
fn drop_front(bytes: &mut Vec<u8>, count: usize)
    requires { count ≤ length bytes.old.items }
    ensures { bytes.new.items ≡ drop count bytes.old.items }
{
    let left = bytes.len() - count;
    bytes.copy_within(count.., 0);
    bytes.truncate(left);
}
