//! The error text of a refused query.
ghost use Rattle.std.specs.Prelude.{◌≡◌, IfOk, string_bytes};
ghost use Rattle.vl_pipe.specs.Refused.{said_of};

use lone_desk::QueryRefusal;
use std::alloc::{AllocError, Global};

/// Writes the line for the error stream.
pub fn said_of(alloc: Global, refusal: QueryRefusal) -> Result<String, AllocError>
    ensures { IfOk result (λ text. string_bytes text ≡ said_of refusal) }
{
    match refusal {
        QueryRefusal::Unspelled(fault) => format!(in alloc; "query: {fault}\n"),
        QueryRefusal::Pattern { nth } => format!(in alloc; "query: RegexRefused number {nth}\n"),
        QueryRefusal::Memory => String::from_str(alloc, "no memory\n"),
    }
}
