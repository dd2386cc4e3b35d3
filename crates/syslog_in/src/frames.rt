//! Messages, one after another in one buffer.
ghost use Rattle.std.specs.Prelude.{◌≡◌, ◌<◌, ◌++◌, ◌∷◌, [], length, take, slice_get, Some, OnOk, OnErr, IsTrue, ◌↔◌};

use std::alloc::{AllocError, Global};
use std::marker::Model;

/// A list of byte texts.
#[derive(Drop)]
pub struct Frames {
    bytes: Vec<u8>,
    spans: Vec<FrameSpan>,
}

/// Where a text lies among the bytes.
#[derive(Clone, Copy)]
struct FrameSpan {
    start: usize,
    end: usize,
}

impl Model for Frames {
    ghost use Rattle.std.specs.Prelude.{ℕ, List};
    ghost use Rattle.syslog_in.specs.Spans.{texts_at, are_inside};
    ghost use Rattle.std.specs.Prelude.{IsTrue};

    ghost Value = { List (List ℕ) };

    ghost view = { λ f. texts_at f.bytes.items f.spans.items };

    ghost invariant = { λ f. IsTrue (are_inside f.bytes.items f.spans.items) };
}

impl Frames {
    /// No texts. This allocates nothing.
    pub fn new(alloc: Global) -> Frames
        ensures { result ≡ [] }
    {
        Frames {
            bytes: Vec::new(alloc),
            spans: Vec::new(alloc),
        }
    }

    /// Returns how many texts there are.
    pub fn len(&self) -> usize
        ensures { result ≡ length self.now }
    {
        self.spans.len()
    }

    /// Returns whether there are no texts.
    pub fn is_empty(&self) -> bool
        ensures { IsTrue result ↔ (self.now ≡ []) }
    {
        self.spans.is_empty()
    }

    /// Returns the text at this place, counted from 0.
    pub fn at(&self, i: usize) -> &[u8]
        requires { i < length self.now }
        ensures { slice_get self.now i ≡ Some result.now }
    {
        let span = self.spans[i];
        &self.bytes[span.start..span.end]
    }

    /// Appends a text. If allocation fails, the texts are unchanged.
    pub(crate) fn push(&mut self, text: &[u8]) -> Result<(), AllocError>
        ensures ok { OnOk result (self.new ≡ self.old ++ text.now ∷ []) }
        ensures err { OnErr result (self.new ≡ self.old) }
    {
        let start = self.bytes.len();
        self.bytes.extend_from_slice(text)?;
        let end = self.bytes.len();
        match self.spans.push(FrameSpan { start, end }) {
            Ok(()) => Ok(()),
            Err(_) => Err(AllocError),
        }
    }

    /// Keeps the first texts, this many of them.
    pub(crate) fn truncate(&mut self, count: usize)
        ensures { self.new ≡ take count self.old }
    {
        self.spans.truncate(count);
    }

    /// Takes all texts out, and keeps the room for others.
    pub fn clear(&mut self)
        ensures { self.new ≡ [] }
    {
        self.spans.clear();
        self.bytes.clear();
    }
}
