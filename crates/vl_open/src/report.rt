//! Writes to the error stream why a store was not opened.
ghost use Rattle.std.specs.Prelude.{◌≡◌, IfOk, List, string_bytes, ℕ};
ghost use Rattle.vl_io.specs.Change.{change_of};
ghost use Rattle.vl_open.specs.Opening.{ReportsFault, ReportsText, reopen_fault_text};

use part_store::ReopenFault;
use std::alloc::{AllocError, Global};
use vl_io::Sink;
use vl_status::{Status, report_no_memory, say};

/// Reports why a store was not reopened, or that memory ran out for the text.
pub(crate) fn report_fault<E: Sink>(alloc: Global, fault: ReopenFault, err: &mut E) -> Status
    ensures { ReportsFault (change_of E.written E.faults err.old err.new) fault result }
{
    match fault {
        ReopenFault::VaultFault => {
            say(err, "vault fault\n");
            Status::VaultFault
        }
        ReopenFault::Damaged { file, at } => report_damage(damaged_text(alloc, file, at), err),
        ReopenFault::Version { file, found } => report_damage(
            version_text(alloc, file, found),
            err,
        ),
        ReopenFault::Memory => report_no_memory(err),
    }
}

/// Reports damage with this text, or that memory ran out for it.
fn report_damage<E: Sink>(text: Result<String, AllocError>, err: &mut E) -> Status
    ensures { (bytes : List ℕ) → IfOk text (λ t. string_bytes t ≡ bytes)
        → ReportsText (change_of E.written E.faults err.old err.new) bytes result }
{
    match text {
        Ok(text) => {
            say(err, text.as_str());
            Status::Damaged
        }
        Err(_) => report_no_memory(err),
    }
}

/// Writes the line for a damaged file.
fn damaged_text(alloc: Global, file: u64, at: u64) -> Result<String, AllocError>
    ensures { IfOk result (λ text. string_bytes text ≡ reopen_fault_text (ReopenFault.Damaged file at)) }
{
    format!(in alloc; "damaged file {file} at {at}\n")
}

/// Writes the line for a file of another version.
fn version_text(alloc: Global, file: u64, found: u16) -> Result<String, AllocError>
    ensures { IfOk result (λ text. string_bytes text ≡ reopen_fault_text (ReopenFault.Version file found)) }
{
    format!(in alloc; "version {found} in file {file}\n")
}
