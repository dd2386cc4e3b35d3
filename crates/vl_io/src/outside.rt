//! The traits of the outside.
ghost use Rattle.std.specs.Prelude.{◌≡◌, ℕ, ◌≤◌, List, Option, IfOk, length};
ghost use Rattle.vl_io.specs.Bytes.{ReadConsumes, TakesSome, WriteAppends};
ghost use Rattle.vl_io.specs.Faults.{HasCause};
ghost use Rattle.vl_io.specs.Moments.{IsMoment, Tells};
ghost use Rattle.vl_io.specs.Visits.{NextGives};

use std::error::Error;
use std::fmt;

/// An object of the outside failed.
#[derive(Clone, Copy, Debug, PartialEq, Eq)]
pub struct Failed;

impl fmt::Display for Failed {
    ghost use Rattle.std.specs.Prelude.{Some, codes};

    ghost output = { λ _. Some (codes "reading or writing failed") };

    fn fmt<W: fmt::Write>(&self, f: &mut fmt::Formatter<W>) -> fmt::Result {
        f.write_str("reading or writing failed")
    }
}

impl Error for Failed {}

/// Gives bytes.
pub trait Source {
    // The bytes that are left, where the source tells them.
    ghost left: { Self → Option (List ℕ) };

    // How often the source failed.
    ghost faults: { Self → ℕ };

    /// Puts the next bytes at the front of `buf`, and says how many. `Ok(0)` for a buffer that is not
    /// empty says that nothing is left. A read that fails takes nothing.
    fn read(&mut self, buf: &mut [u8]) -> Result<usize, Failed>
        ensures bound { IfOk result (λ n. n ≤ length buf.new) }
        ensures bytes { ReadConsumes (left self.old) (left self.new) result buf.new }
        ensures cause { HasCause (faults self.old) (faults self.new) result };
}

/// Takes bytes.
pub trait Sink {
    // The bytes written so far, where the sink tells them.
    ghost written: { Self → Option (List ℕ) };

    // How often the sink failed.
    ghost faults: { Self → ℕ };

    /// Writes a front of `piece`, and says how long it is: at least one byte, unless the piece is
    /// empty. A write that fails writes nothing.
    fn write(&mut self, piece: &[u8]) -> Result<usize, Failed>
        ensures bound { TakesSome result piece.now }
        ensures bytes { WriteAppends (written self.old) (written self.new) result piece.now }
        ensures cause { HasCause (faults self.old) (faults self.new) result };
}

/// Tells the time.
pub trait Clock {
    // The moments that `now` gave so far, where the clock tells them.
    ghost moments: { Self → Option (List ℕ) };

    /// Returns the moment in nanoseconds since the start of 1970, in `0..2^63`.
    fn now(&mut self) -> i64
        ensures in_range { IsMoment result }
        ensures told { Tells (moments self.old) (moments self.new) result };

    /// Waits a little. Nothing is promised of how long.
    fn pause(&mut self)
        ensures kept { moments self.new ≡ moments self.old };
}

/// What a visitor speaks.
#[derive(Clone, Copy, Debug, PartialEq, Eq)]
pub enum VisitKind {
    /// HTTP requests.
    Http,
    /// Syslog messages.
    Syslog,
}

/// One visitor of the program, as an accepted connection.
#[derive(Debug, Drop)]
pub struct Visit<S, K, C> {
    /// What the visitor speaks.
    pub kind: VisitKind,
    /// What comes from the visitor.
    pub source: S,
    /// What goes to the visitor.
    pub sink: K,
    /// The clock of the visit.
    pub clock: C,
}

/// Gives visits, one after another.
pub trait Doors {
    /// Where the bytes of a visit come from.
    type S: Source + Drop;

    /// Where the bytes for a visit go to.
    type K: Sink + Drop;

    /// The clock of a visit.
    type C: Clock + Drop;

    // How many visits are left, where the doors tell it.
    ghost left: { Self → Option ℕ };

    // How often the doors failed.
    ghost faults: { Self → ℕ };

    /// Returns the next visit, which is then one less that is left. `None` says that no visit is left. A call that
    /// fails takes none. The visit that was given before is over: a call may first bring its connection to an end, as
    /// `TcpDoors` does.
    fn next(&mut self) -> Result<Option<Visit<Self::S, Self::K, Self::C>>, Failed>
        ensures visits { NextGives (left self.old) (left self.new) result }
        ensures cause { HasCause (faults self.old) (faults self.new) result };
}
