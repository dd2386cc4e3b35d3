// Where the object in a line begins, and what a stop inside it says of the line.
ghost use Rattle.std.specs.Prelude.{IfOk, IfErr};
ghost use Rattle.jsonline_in.specs.Clauses.{Opens, StopsIn};
ghost use Rattle.jsonline_in.specs.Faults.{Refuses, IsFault};

use crate::fault::JsonFault;
use crate::scan::{after_space, past};
use crate::scan_fault::ScanFault;

/// Returns the text after the opening brace of the line.
pub(crate) fn opened(line: &[u8]) -> Result<&str, JsonFault>
    ensures inside { IfOk result (λ inside. Opens line.now inside.now) }
    ensures refused { IfErr result (λ fault. Refuses fault line.now) }
    ensures fault { IfErr result (λ fault. IsFault fault line.now) }
{
    let text = match std::str::from_utf8(line) {
        Ok(text) => text,
        Err(fault) => {
            return Err(JsonFault::NotUtf8 {
                at: fault.valid_up_to(),
            });
        }
    };
    match past(after_space(text), b'{') {
        Some(inside) => Ok(inside),
        None => Err(JsonFault::NotObject),
    }
}

/// Returns what a stop after the opening brace says of the line.
pub(crate) fn fault_of(line: &[u8], stop: ScanFault) -> JsonFault
    requires { StopsIn stop line.now }
    ensures refused { Refuses result line.now }
    ensures fault { IsFault result line.now }
{
    match stop {
        ScanFault::TooDeep => JsonFault::TooDeep,
        ScanFault::Stuck { left } => JsonFault::NotJson {
            at: line.len() - left,
        },
        ScanFault::Memory => JsonFault::Memory,
    }
}
