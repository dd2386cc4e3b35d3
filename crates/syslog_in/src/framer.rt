//! From a stream of bytes to its messages.
ghost use Rattle.std.specs.Prelude.{◌≡◌, ◌≤◌, ◌++◌, ℕ, List, [], length, Some, Err, OnOk, IfErr};
ghost use Rattle.syslog_in.specs.Framing.{AreApart, AreFrames};

use crate::fault::FrameFault;
use crate::frames::Frames;
use crate::reach::{Why, push_message, read_on};
use crate::scan::begins_length;
use std::alloc::{AllocError, Global};
use std::marker::Model;

/// How a stream ended: the number of a fault and its place, or 0 and the number of all bytes.
#[derive(Clone, Copy)]
struct StreamEnd {
    first: u8,
    at: u64,
}

impl StreamEnd {
    fn again(self) -> FrameFault
        ensures { result ≡ FrameFault.Ended self.first self.at }
    {
        FrameFault::Ended {
            first: self.first,
            at: self.at,
        }
    }
}

/// Cuts a stream into its messages, however it comes in pieces. It keeps the unfinished frame only.
#[derive(Drop)]
pub struct Framer {
    start: u64,
    rest: Vec<u8>,
    end: Option<StreamEnd>,
}

impl Model for Framer {
    ghost use Rattle.std.specs.Prelude.{IsTrue};
    ghost use Rattle.syslog_in.specs.Framer.{Framing, end_of};
    ghost use Rattle.syslog_in.specs.Reading.{is_short, step_at};

    ghost Value = { Framing };

    ghost view = { λ f. record { start = f.start; rest = f.rest.items; end = end_of f.end } };

    ghost invariant = { λ f. IsTrue (is_short (step_at f.rest.items)) };
}

impl Framer {
    ghost use Rattle.syslog_in.specs.Framer.{HasTaken, Completes, IsFeedFault, Ends, IsCut, end_after, place};

    /// Returns a framer at the start of a stream. This allocates nothing.
    pub fn new(alloc: Global) -> Framer
        ensures fresh { HasTaken result [] }
        // Bytes are whole frames and a rest in one way, so that cuttings make no difference.
        ensures unique { (bytes : List ℕ) (messages others : List (List ℕ)) (rest left : List ℕ)
            → AreFrames bytes messages rest → AreFrames bytes others left → (messages ≡ others) × (rest ≡ left) }
        // So a fault comes exactly where it is said to come.
        ensures apart { (rest : List ℕ) → AreApart rest }
    {
        Framer {
            start: 0,
            rest: Vec::new(alloc),
            end: None,
        }
    }

    /// Appends to `out` the messages that become whole with this piece of the stream. After a fault `out` also has
    /// those that came before it, but where memory ran out, all is as before.
    pub fn feed(&mut self, alloc: Global, piece: &[u8], out: &mut Frames) -> Result<(), FrameFault>
        ensures taken { OnOk result ((fed : List ℕ) → HasTaken self.old fed → HasTaken self.new (fed ++ piece.now)) }
        ensures given { OnOk result ((fed : List ℕ) → HasTaken self.old fed
            → Completes fed piece.now out.old out.new self.new.rest) }
        // No more is kept than the front of one frame.
        ensures kept { OnOk result ((fed : List ℕ) → HasTaken self.old fed → length self.new.rest ≤ 65_541) }
        ensures fault { IfErr result (λ fault. (fed : List ℕ) → HasTaken self.old fed
            → IsFeedFault fault fed piece.now out.old out.new) }
        ensures end { IfErr result (λ fault. self.new.end ≡ end_after fault self.old.end) }
        ensures memory { result ≡ Err FrameFault.Memory → (self.new ≡ self.old) × (out.new ≡ out.old) }
        ensures ended { (first at : ℕ) → self.old.end ≡ Some (first, at)
            → (result ≡ Err (FrameFault.Ended first at)) × (self.new ≡ self.old) × (out.new ≡ out.old) }
    {
        if let Some(end) = self.end {
            return Err(end.again());
        }
        let kept = self.rest.len();
        let had = out.len();
        let stop = match read_on(alloc, &mut self.rest, piece, out) {
            Ok(stop) => stop,
            Err(AllocError) => {
                self.rest.truncate(kept);
                out.truncate(had);
                return Err(FrameFault::Memory);
            }
        };
        self.start = self.start.saturating_add(stop.passed);
        match stop.why {
            Why::Short => Ok(()),
            Why::BadLength { behind } => {
                let at = self.start.saturating_add(behind as u64);
                self.rest.clear();
                self.end = Some(StreamEnd { first: 1, at });
                Err(FrameFault::BadLength { at })
            }
            Why::TooLong => {
                let at = self.start;
                self.rest.clear();
                self.end = Some(StreamEnd { first: 2, at });
                Err(FrameFault::TooLong { at })
            }
        }
    }

    /// Appends to `out` the message that the end of the input makes of what is left, if there is one.
    pub fn finish(&mut self, out: &mut Frames) -> Result<(), FrameFault>
        ensures given { OnOk result (Ends self.old out.old out.new) }
        ensures end { OnOk result ((fed : List ℕ) → HasTaken self.old fed
            → self.new.end ≡ Some (0, place (length fed))) }
        ensures cut { IfErr result (λ fault. IsCut fault self.old self.new out.old out.new) }
        ensures ended { (first at : ℕ) → self.old.end ≡ Some (first, at)
            → (result ≡ Err (FrameFault.Ended first at)) × (self.new ≡ self.old) × (out.new ≡ out.old) }
    {
        if let Some(end) = self.end {
            return Err(end.again());
        }
        if begins_length(&self.rest) {
            let at = self.start;
            self.rest.clear();
            self.end = Some(StreamEnd { first: 3, at });
            return Err(FrameFault::Cut { at });
        }
        push_message(&self.rest, out)?;
        let at = self.start.saturating_add(self.rest.len() as u64);
        self.rest.clear();
        self.end = Some(StreamEnd { first: 0, at });
        Ok(())
    }
}
