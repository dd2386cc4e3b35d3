//! An input of syslog without an end.
ghost use Rattle.std.specs.Prelude.{◌≤◌, IfOk, None, length};
ghost use Rattle.vl_io.specs.Bytes.{ReadConsumes};
ghost use Rattle.vl_io.specs.Faults.{HasCause};

use log_desk::Desk;
use std::alloc::{AllocError, AllocGlobal};
use std::fmt::Write;
use std::random::RandomSource;
use std::sync::Wait;
use vl_io::{Failed, MemClock, Source};
use vl_session::syslog_session;

/// Each read fills the buffer with one line.
#[derive(Drop)]
struct SameLine;

impl Source for SameLine {
    ghost left = { λ _. None };

    ghost faults = { λ _. 0 };

    fn read(&mut self, buf: &mut [u8]) -> Result<usize, Failed>
        ensures bound { IfOk result (λ n. n ≤ length buf.new) }
        ensures bytes { ReadConsumes None None result buf.new }
        ensures cause { HasCause 0 0 result }
    {
        buf.fill(b'a');
        let count = buf.len();
        if count > 0 {
            buf[count - 1] = b'\n';
        }
        Ok(count)
    }
}

/// Takes it in, and adds how many messages were accepted and refused.
pub fn push_endless<R: AllocGlobal + Wait + RandomSource>(
    rt: &R,
    out: &mut String,
) -> Result<(), AllocError> {
    let alloc = rt.alloc();
    let mut clock = MemClock::of(alloc, &[5])?;
    let (desk, mut pass) = Desk::fresh(rt, alloc, 1)?;
    let report = syslog_session(rt, alloc, &desk, &mut pass, &mut SameLine, &mut clock);
    write!(
        out,
        "no end: accepted {}, refused {}, {:?}\n",
        report.accepted, report.refused, report.end
    )
}
