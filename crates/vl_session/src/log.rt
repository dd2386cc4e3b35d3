//! What a session asks of the log.
ghost use Rattle.std.specs.Prelude.{◌≡◌, ◌≤ℤ◌, ℕ, length, pos, unsigned_abs};
ghost use Rattle.http_in.specs.Reading.{asked_by};
ghost use Rattle.log_desk.specs.Seen.{Caller, Seen};
ghost use Rattle.vl_session.specs.Reply.{IsServed};
ghost use Rattle.vl_session.specs.Seen.{Effect};
ghost use Rattle.vl_session.specs.Sent.{bytes_of};

use http_in::Request;
use vl_row::Text;

/// A reply that is to be written.
#[derive(Drop)]
pub(crate) enum Reply {
    /// All of it.
    Whole(String),
    /// Its head, and its content, which is not copied after that.
    Parts { head: String, content: Text },
    /// A fixed text, which needs no memory.
    Fixed(&'static str),
}

/// The log, as one caller sees it.
pub(crate) trait Log {
    // What the caller has seen.
    ghost seen: { Self → Seen };

    // Who the caller is.
    ghost caller: { Self → Caller };

    // The caller may ask.
    ghost may_ask: { Self → Type 0 };

    // The name of what the caller was lent, if it was lent anything.
    ghost name: { Self → ℕ };

    /// Serves a request that was whole at the moment `now`, in nanoseconds since the start of 1970, and gives the
    /// reply, after which the connection ends or goes on.
    fn serve(&mut self, request: &Request, now: i64, closes: bool) -> Reply
        requires may_ask { may_ask self.old }
        requires moment { pos 0 ≤ℤ now }
        ensures served { (effect : Effect) × IsServed (caller self.old) (asked_by request.now) closes
            (unsigned_abs now) (seen self.old) (seen self.new) effect (bytes_of result) }
        ensures may_ask { may_ask self.new }
        ensures same { caller self.new ≡ caller self.old }
        ensures lent { name self.new ≡ name self.old };

    /// Returns how many batches the caller has seen.
    fn front(&self) -> u64
        ensures { result ≡ length (seen self.now).history };

    /// Returns how many of them, as it has seen, are settled.
    fn settled(&self) -> u64
        ensures { result ≡ (seen self.now).settled };
}
