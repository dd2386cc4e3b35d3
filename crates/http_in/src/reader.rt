//! Requests from a source.
ghost use Rattle.std.specs.Prelude.{◌≡◌, ◌≤◌, ℕ, List, [], ◌++◌, Some, None, Err};
ghost use Rattle.vl_io.specs.Bytes.{Consumes, IsAtEnd};
ghost use Rattle.vl_io.specs.Faults.{Rose};
ghost use Rattle.http_in.specs.Laws.{FaultsAreOne, FaultsEnd, RequestsAreOne, RequestsAreWhole};
ghost use Rattle.http_in.specs.Reading.{FindsAt, Holds, IsBetween, ReadsNoFurther, fault_after, lasting};

use crate::body::Body;
use crate::fault::RequestFault;
use crate::request::Request;
use crate::stage::Stage;
use crate::turn::{Begun, read_request};
use crate::window::Window;
use std::alloc::Global;
use std::marker::Model;
use vl_io::Source;

/// Reads the requests of a connection, however the source cuts its bytes.
#[derive(Drop)]
pub struct Reader {
    alloc: Global,
    window: Window,
    begun: Begun,
    body: Body,
    fault: Option<RequestFault>,
}

impl Model for Reader {
    ghost use Rattle.http_in.specs.Reading.{IsBegun, Reading, held_by};

    ghost Value = { Reading };

    ghost view = { λ r. record {
      held = held_by r.begun r.body r.window;
      fault = r.fault;
    } };

    ghost invariant = { λ r. IsBegun r.begun.head r.begun.bytes.items r.body };
}

impl Reader {
    /// Returns a reader at the start of a connection. This allocates nothing.
    pub fn new(alloc: Global) -> Reader
        ensures holds { Holds 0 [] result.held }
        ensures between { IsBetween result.held }
        ensures fresh { result.fault ≡ None }

        // Laws: of bytes there is one list of requests, and one fault, with the one exception of a target that is cut.
        ensures requests { RequestsAreOne }
        ensures whole { RequestsAreWhole }
        ensures faults { FaultsAreOne }
        ensures ends { FaultsEnd }
    {
        Reader {
            alloc,
            window: Window::new(alloc),
            begun: Begun {
                head: None,
                bytes: Vec::new(alloc),
            },
            body: Body {
                stage: Stage::Done,
                bytes: Vec::new(alloc),
                start: 0,
                place: 0,
            },
            fault: None,
        }
    }

    /// Returns the next request. `None` says that the input ended before a byte of a further request.
    ///
    /// A fault of the bytes is answered again at each further call. After `SourceFault` and `Memory` the bytes that
    /// were taken are kept, and the next call goes on from there.
    ///
    /// The source is asked only while the bytes that came hold no whole request.
    #[tactic(auto, unfolding(crate::specs::Reading::ReadsNoFurther))]
    pub fn next<S: Source>(&mut self, src: &mut S) -> Result<Option<Request>, RequestFault>
        // The bytes that the reader holds and those that it takes begin with the request, and it holds what follows.
        ensures taken { self.old.fault ≡ None → (piece : List ℕ) × Consumes (S.left src.old) (S.left src.new) piece
            × ((start : ℕ) (bytes : List ℕ) → Holds start bytes self.old.held
            → FindsAt start (bytes ++ piece) (IsAtEnd (S.left src.new)) self.new.held result) }

        // Where a whole request is held, nothing is asked of the source: its client may wait for the reply.
        ensures ready { ReadsNoFurther self.old.held src.old src.new }

        // A fault of the bytes is answered again and again, and nothing is taken.
        ensures lasts { self.old.fault ≡ None → self.new.fault ≡ fault_after result }
        ensures again { (fault : _) → self.old.fault ≡ Some fault → (result ≡ Err fault) × (self.new ≡ self.old)
            × (src.new ≡ src.old) }

        ensures failed { self.old.fault ≡ None → result ≡ Err RequestFault.SourceFault
            → Rose (S.faults src.old) (S.faults src.new) }
        ensures faults { S.faults src.old ≤ S.faults src.new }
    {
        if let Some(fault) = self.fault {
            return Err(fault);
        }
        match read_request(
            self.alloc,
            &mut self.window,
            &mut self.begun,
            &mut self.body,
            src,
        ) {
            Ok(found) => Ok(found),
            Err(fault) => {
                self.fault = lasting(fault);
                Err(fault)
            }
        }
    }
}

/// Returns the fault, if it lasts.
fn lasting(fault: RequestFault) -> Option<RequestFault>
    ensures { result ≡ lasting fault }
{
    match fault {
        RequestFault::SourceFault | RequestFault::Memory => None,
        _ => Some(fault),
    }
}
