//! Exit statuses, and messages on the error stream.
ghost use Rattle.std.specs.Prelude.{◌≡◌, []};
ghost use Rattle.vl_io.specs.Change.{IsTold, change_of};
ghost use Rattle.vl_status.specs.Status.{no_memory_text};

use vl_io::{Sink, put_all};

/// How a command ended. The number is the exit status of the process.
#[derive(Clone, Copy, Debug, PartialEq, Eq)]
pub enum Status {
    Done = 0,
    QueryRefused = 1,
    Usage = 2,
    ReadFault = 3,
    WriteFault = 4,
    VaultFault = 5,
    Damaged = 6,
    DoorFault = 7,
    Limit = 8,
    NoMemory = 9,
}

impl Status {
    ghost use Rattle.vl_status.specs.Status.{status_number};

    pub fn number(self) -> u8
        ensures { result ≡ status_number self }
    {
        self as u8
    }
}

/// Writes a text to the error stream. If the stream fails, the rest of the text is dropped.
pub fn say<E: Sink>(err: &mut E, text: &str)
    ensures { IsTold (change_of E.written E.faults err.old err.new) [] text.now }
{
    let _ = put_all(err, text.as_bytes());
}

/// Reports that memory ran out.
pub fn report_no_memory<E: Sink>(err: &mut E) -> Status
    ensures status { result ≡ Status.NoMemory }
    ensures said { IsTold (change_of E.written E.faults err.old err.new) [] no_memory_text }
{
    say(err, "no memory\n");
    Status::NoMemory
}
