//! Why the next request cannot be read.

use http_said::FieldFault;
use std::alloc::AllocError;
use vl_io::Failed;

/// Why the next request cannot be read. Places count bytes from the start of the connection.
#[derive(Clone, Copy, Debug, PartialEq, Eq, Drop)]
pub enum RequestFault {
    /// The source failed.
    SourceFault,
    /// The bytes from this place on are not a head of a request, however they go on.
    BadHead { at: u64 },
    /// The input ended inside the request that begins at this place.
    Cut { at: u64 },
    /// The head or the trailer section has 16,384 bytes without its end, or a 101st header line.
    HeadLarge,
    /// The body is longer than 33,554,432 bytes.
    BodyLarge,
    /// The fields do not say in one way how long the body is.
    BadLength,
    /// The chunked body is out of form from this place on.
    BadChunk { at: u64 },
    /// The body is encoded.
    Coding,
    /// Memory ran out.
    Memory,
}

impl From<AllocError> for RequestFault {
    ghost use Rattle.std.specs.Prelude.{◌≡◌};
    ghost use Rattle.http_in.specs.declared.fault.RequestFault.TheVariants.{Memory};

    ghost from_gives = { λ _ fault. fault ≡ Memory };

    fn from(_: AllocError) -> RequestFault {
        RequestFault::Memory
    }
}

impl From<Failed> for RequestFault {
    ghost use Rattle.std.specs.Prelude.{◌≡◌};
    ghost use Rattle.http_in.specs.declared.fault.RequestFault.TheVariants.{SourceFault};

    ghost from_gives = { λ _ fault. fault ≡ SourceFault };

    fn from(_: Failed) -> RequestFault {
        RequestFault::SourceFault
    }
}

impl From<FieldFault> for RequestFault {
    ghost use Rattle.std.specs.Prelude.{◌≡◌};
    ghost use Rattle.http_in.specs.Unframed.{request_fault};

    ghost from_gives = { λ field fault. fault ≡ request_fault field };

    fn from(fault: FieldFault) -> RequestFault {
        match fault {
            FieldFault::BodyLarge => RequestFault::BodyLarge,
            FieldFault::BadLength => RequestFault::BadLength,
            FieldFault::Coding => RequestFault::Coding,
        }
    }
}
