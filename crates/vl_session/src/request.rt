//! The next request, or why there is none.
ghost use Rattle.std.specs.Prelude.{◌≡◌, ◌≤◌, ◌++◌, ℕ, List, None, IfErr, IfOk, OnOk};
ghost use Rattle.vl_io.specs.Bytes.{Consumes};
ghost use Rattle.vl_io.specs.Change.{change_of};
ghost use Rattle.http_in.specs.Reading.{Holds, asked_by};
ghost use Rattle.vl_session.specs.Sent.{EndsReading, EndsRefused, Reaches};

use crate::report::End;
use http_in::{Reader, Request, RequestFault};
use http_route::fault_reply;
use vl_io::{Failed, Sink, Source, put_all};

/// Returns the next request. If there is none, the reply to the fault has been written.
pub(crate) fn next_request<S: Source, K: Sink>(
    reader: &mut Reader,
    src: &mut S,
    sink: &mut K,
) -> Result<Request, End>
    requires { reader.old.fault ≡ None }
    ensures found { IfOk result (λ request.
        Reaches reader.old reader.new (S.left src.old) (S.left src.new) (asked_by request)) }
    ensures silent { OnOk result (K.written sink.new ≡ K.written sink.old) }
    ensures ended { IfErr result (λ end. (piece : List ℕ) × Consumes (S.left src.old) (S.left src.new) piece
        × ((start : ℕ) (bytes : List ℕ) → Holds start bytes reader.old.held
        → EndsReading (change_of S.left S.faults src.old src.new) (change_of K.written K.faults sink.old sink.new) start
        (bytes ++ piece) end)) }
    ensures src_faults { S.faults src.old ≤ S.faults src.new }
    ensures sink_faults { K.faults sink.old ≤ K.faults sink.new }
{
    match reader.next(src) {
        Ok(Some(request)) => Ok(request),
        Ok(None) => Err(End::Closed),
        Err(RequestFault::SourceFault) => Err(End::SourceFault),
        Err(RequestFault::Memory) => Err(End::Memory),
        Err(fault) => Err(refuse(fault, sink)),
    }
}

/// Writes the reply to a fault of the bytes, where there is one, and says how the session ends.
fn refuse<K: Sink>(fault: RequestFault, sink: &mut K) -> End
    ensures ends { EndsRefused (change_of K.written K.faults sink.old sink.new) fault result }
    ensures faults { K.faults sink.old ≤ K.faults sink.new }
{
    let reply = fault_reply(fault).unwrap_or("");
    match put_all(sink, reply.as_bytes()) {
        Ok(()) => End::BadInput(fault),
        Err(Failed) => End::SinkFault,
    }
}
