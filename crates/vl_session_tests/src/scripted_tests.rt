//! A source in whose third read another caller's session runs.
ghost use Rattle.std.specs.Prelude.{◌≤◌, IfOk, None, length};
ghost use Rattle.vl_io.specs.Bytes.{ReadConsumes};
ghost use Rattle.vl_io.specs.Faults.{HasCause};

use crate::connection_tests::tell;
use log_desk::{Desk, Pass};
use std::alloc::Global;
use std::marker::Model;
use std::random::RandomSource;
use std::sync::Wait;
use vl_io::{Failed, Source};

/// It gives one request at each read: an insert, a select, an insert, a select. Before it gives the third one, another
/// caller inserts.
#[derive(Drop)]
pub(crate) struct Scripted<'d, R> {
    pub rt: &'d R,
    pub alloc: Global,
    pub desk: &'d Desk,
    /// The other caller's.
    pub pass: Pass,
    pub reads: u64,
}

impl<'d, R> Model for Scripted<'d, R> {
    ghost use Rattle.turn_lock.specs.Passes.{IsPassOf, LockId};

    ghost Value = { LockId };

    ghost view = { λ s. s.desk.now };

    ghost invariant = { λ s. IsPassOf s.desk.now s.pass };
}

impl<R: Wait + RandomSource> Source for Scripted<'_, R> {
    ghost left = { λ _. None };

    ghost faults = { λ _. 0 };

    fn read(&mut self, buf: &mut [u8]) -> Result<usize, Failed>
        ensures bound { IfOk result (λ n. n ≤ length buf.new) }
        ensures bytes { ReadConsumes None None result buf.new }
        ensures cause { HasCause 0 0 result }
    {
        self.reads = self.reads.saturating_add(1);
        if self.reads == 3 {
            let request = insert_of('b').as_bytes();
            let _ = tell(self.rt, self.alloc, self.desk, &mut self.pass, request);
        }
        let request = match self.reads {
            1 => insert_of('a'),
            3 => insert_of('c'),
            2 | 4 => SELECT,
            _ => "",
        };
        Ok(fill(buf, request.as_bytes()))
    }
}

/// Puts bytes into the buffer, as many as it has room for.
fn fill(buf: &mut [u8], bytes: &[u8]) -> usize
    ensures { result ≤ length buf.new }
{
    let count = bytes.len().min(buf.len());
    buf[..count].copy_from_slice(&bytes[..count]);
    count
}

const SELECT: &str = "GET /select/logsql/query?query=*+%7C+fields+_msg HTTP/1.1\r\n\r\n";

/// Returns a request that inserts one row with this message.
fn insert_of(message: char) -> &'static str {
    match message {
        'a' => "POST /insert/jsonline HTTP/1.1\r\nContent-Length: 13\r\n\r\n{\"_msg\":\"a\"}\n",
        'b' => "POST /insert/jsonline HTTP/1.1\r\nContent-Length: 13\r\n\r\n{\"_msg\":\"b\"}\n",
        _ => "POST /insert/jsonline HTTP/1.1\r\nContent-Length: 13\r\n\r\n{\"_msg\":\"c\"}\n",
    }
}
