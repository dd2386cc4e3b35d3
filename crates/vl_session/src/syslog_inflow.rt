//! The input of a session of syslog, a read at a time.
ghost use Rattle.std.specs.Prelude.{◌≡◌, ℕ, ◌+◌, ◌<◌, ◌≤◌, IfOk, List, [], Some, length, vec_len};
ghost use Rattle.vl_io.specs.Change.{Change, Gave, IsSpent, change_of};
ghost use Rattle.syslog_in.specs.Framer.{HasTaken};
ghost use Rattle.vl_session.specs.SyslogSession.{read_limit, session_limit};
ghost use Rattle.vl_session.specs.SyslogTaking.{Comes};

use crate::syslog_report::SyslogEnd;
use std::alloc::{AllocError, Global};
use syslog_in::{Framer, Frames};
use vl_io::{Failed, Source};

/// How many bytes are asked for at once: enough that the calls cost little, and few enough that they stay in the
/// processor's cache.
const PIECE_LEN: usize = 65_536;

/// The most bytes that are taken.
const SESSION_LIMIT: usize = 268_435_456;

/// Room for a piece.
pub(crate) fn piece_buffer(alloc: Global) -> Result<Vec<u8>, AllocError>
    ensures { IfOk result (λ buffer. vec_len buffer ≡ read_limit) }
{
    Ok(vec![in alloc; 0; PIECE_LEN]?)
}

/// What came from the source so far.
#[derive(Drop)]
pub(crate) struct Inflow {
    framer: Framer,
    /// The messages that the last read completed.
    pub(crate) messages: Frames,
    taken: usize,
}

impl Inflow {
    /// Nothing has come yet.
    pub(crate) fn new(alloc: Global) -> Inflow
        ensures fresh { HasTaken result.framer [] }
        ensures none { result.taken ≡ 0 }
    {
        Inflow {
            framer: Framer::new(alloc),
            messages: Frames::new(alloc),
            taken: 0,
        }
    }

    /// Reads once, so that `messages` are those that this read completes. The answer is why the session ends after
    /// them, if it does.
    pub(crate) fn advance<S: Source>(
        &mut self,
        alloc: Global,
        src: &mut S,
        piece: &mut [u8],
    ) -> Option<SyslogEnd>
        requires room { length piece.old ≡ read_limit }
        requires within { self.old.taken < session_limit }
        ensures comes { (fed : List ℕ) → HasTaken self.old.framer fed → length fed ≡ self.old.taken
            → Comes fed (change_of S.left S.faults src.old src.new) self.old.framer self.new.framer self.new.messages
            self.new.taken result }
        ensures faults { S.faults src.old ≤ S.faults src.new }
    {
        self.messages.clear();
        let most = PIECE_LEN.min(SESSION_LIMIT - self.taken);
        match src.read(&mut piece[..most]) {
            Err(Failed) => Some(SyslogEnd::SourceFault),
            Ok(0) => Some(self.finish()),
            Ok(count) => self.feed(alloc, &piece[..count]),
        }
    }

    /// The source said that the input ended.
    fn finish(&mut self) -> SyslogEnd
        requires empty { self.old.messages ≡ [] }
        requires within { self.old.taken < session_limit }
        ensures comes { (fed : List ℕ) (source : Change) → HasTaken self.old.framer fed → length fed ≡ self.old.taken
            → Gave source [] → IsSpent source → Comes fed source self.old.framer self.new.framer self.new.messages
            self.new.taken (Some result) }
    {
        match self.framer.finish(&mut self.messages) {
            Ok(()) => SyslogEnd::Closed,
            Err(fault) => SyslogEnd::from(fault),
        }
    }

    /// Handles a piece that the source gave.
    fn feed(&mut self, alloc: Global, piece: &[u8]) -> Option<SyslogEnd>
        requires empty { self.old.messages ≡ [] }
        requires some { 0 < length piece.now }
        requires few { length piece.now ≤ read_limit }
        requires within { self.old.taken + length piece.now ≤ session_limit }
        ensures comes { (fed : List ℕ) (source : Change) → HasTaken self.old.framer fed → length fed ≡ self.old.taken
            → Gave source piece.now → Comes fed source self.old.framer self.new.framer self.new.messages
            self.new.taken result }
    {
        self.taken += piece.len();
        match self.framer.feed(alloc, piece, &mut self.messages) {
            Ok(()) if self.taken == SESSION_LIMIT => Some(SyslogEnd::Limit),
            Ok(()) => None,
            Err(fault) => Some(SyslogEnd::from(fault)),
        }
    }
}
