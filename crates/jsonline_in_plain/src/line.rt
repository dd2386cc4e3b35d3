// The start of the object in a line, and the error of a line.
ghost use Rattle.std.specs.Prelude.{IfOk, IfErr};
ghost use Rattle.jsonline_in.specs.Clauses.{Opens, StopsIn};
ghost use Rattle.jsonline_in.specs.Faults.{Refuses, IsFault};

use crate::scan::{past, skip_space};
use jsonline_in::{JsonFault, ScanFault};

/// Returns the text after the opening brace of the line.
pub(crate) fn open_object(line: &[u8]) -> Result<&str, JsonFault>
    ensures inside { IfOk result (λ inside. Opens line.now inside.now) }
    ensures refused { IfErr result (λ fault. Refuses fault line.now) }
    ensures fault { IfErr result (λ fault. IsFault fault line.now) }
{
    match std::str::from_utf8(line) {
        Ok(text) => match past(skip_space(text), b'{') {
            Some(inside) => Ok(inside),
            None => Err(JsonFault::NotObject),
        },
        Err(fault) => Err(JsonFault::NotUtf8 {
            at: fault.valid_up_to(),
        }),
    }
}

/// Returns the error of a line from the error after its opening brace.
pub(crate) fn line_fault(line: &[u8], stop: ScanFault) -> JsonFault
    requires { StopsIn stop line.now }
    ensures refused { Refuses result line.now }
    ensures fault { IsFault result line.now }
{
    match stop {
        ScanFault::Stuck { left } => {
            let at = line.len() - left;
            JsonFault::NotJson { at }
        }
        ScanFault::TooDeep => JsonFault::TooDeep,
        ScanFault::Memory => JsonFault::Memory,
    }
}
