//! Replies to the sink.
ghost use Rattle.std.specs.Prelude.{◌<◌, ℕ, OnErr, OnOk, length, take};
ghost use Rattle.vl_io.specs.Bytes.{Appends};
ghost use Rattle.vl_io.specs.Faults.{HasCause};
ghost use Rattle.vl_session.specs.Sent.{bytes_of};

use crate::log::Reply;
use http_reply::put_parts;
use vl_io::{Failed, Sink, put_all};

/// Writes a reply. If the sink fails, a proper prefix of it was written.
pub(crate) fn put_reply<K: Sink>(sink: &mut K, reply: &Reply) -> Result<(), Failed>
    ensures ok { OnOk result (Appends (K.written sink.old) (K.written sink.new) (bytes_of reply.now)) }
    ensures err { OnErr result ((n : ℕ) × (n < length (bytes_of reply.now))
        × Appends (K.written sink.old) (K.written sink.new) (take n (bytes_of reply.now))) }
    ensures cause { HasCause (K.faults sink.old) (K.faults sink.new) result }
{
    match reply {
        Reply::Whole(text) => put_all(sink, text.as_bytes()),
        Reply::Parts { head, content } => put_parts(sink, head.as_str(), content.as_str()),
        Reply::Fixed(text) => put_all(sink, text.as_bytes()),
    }
}
