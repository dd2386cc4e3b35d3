//! The names of refused lines.
ghost use Rattle.std.specs.Prelude.{◌≡◌, ◌+◌, ◌^◌, ◌<◌, string_bytes, IfOk};
ghost use Rattle.std.specs.List.{AllByRecursion};
ghost use Rattle.vl_pipe.specs.Groups.{names_after};

use ingest_row::LineFault;
use std::alloc::{AllocError, Global};

/// Names these lines, where this many came before.
pub fn names_after(
    alloc: Global,
    lines_before: u64,
    refused: &[LineFault],
) -> Result<String, AllocError>
    requires { AllByRecursion (λ fault. lines_before + fault.line < 2 ^ 64) refused.now }
    ensures { IfOk result (λ text. string_bytes text ≡ names_after lines_before refused.now) }
{
    let mut text = String::new(alloc);
    for fault in refused {
        let number = lines_before + fault.line;
        let kind = fault.kind;
        write!(text, "line {number}: {kind}\n")?;
    }
    Ok(text)
}
