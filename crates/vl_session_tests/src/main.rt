//! Without words it reads a case on each line, serves it over an empty desk, and writes what came of it.
//!
//! A case of HTTP is in parts with ` | ` between them: what it shows, how often the connection has the bytes that
//! follow, those, and the bytes after them. The answer is what was written, the moments of the first turns with how
//! many batches had been seen and were settled then, and how the session ended. A short connection is also read a byte
//! at a time, and so that each of its reads fails in turn, and each is served so that each write does; where that is
//! not what it is to be, it is written too.
//!
//! A case of syslog begins with `syslog / `, and is in parts with ` / ` between them: what it shows, a query, how many
//! bytes a read gives at most, or 0, how often the input has the bytes that follow, those, and the bytes after them.
//! The answer is how many messages were read and refused, how the session ended, how many batches there are then, and
//! what the query answers. A short input is also read a byte at a time, and so that each of its reads fails in turn;
//! where that is not what it is to be, it is written too.
//!
//! A byte that is not visible ASCII is written as `\0a;`, and n of the same as `\61x65536;`.
//!
//! After the cases it writes a line for each check that has no case: an input of syslog without an end, lines that are
//! inserted and queries that are asked without a session, the limits of what is held, how many blocks queries open, and
//! sessions of several callers of one desk.
//!
//! The answers in `stdout` are not the program's own: they come from a second reading of the same rules in Python.
//!
//! With a word it serves one session over the standard streams, for measuring: `http`, `syslog` or `inserts`.
#![tactic(auto)]

mod answers_tests;
mod callers_tests;
mod case_tests;
mod connection_tests;
mod desk_tests;
mod endless_tests;
mod http_answers_tests;
mod http_sessions_tests;
mod inserts_tests;
mod limits_tests;
mod measured_tests;
mod opened_tests;
mod scripted_tests;
mod spelling_tests;
mod syslog_answers_tests;
mod syslog_sessions_tests;

use answers_tests::answer_all;
use measured_tests::{measure, task_of};
use std::{env, io};

fn main(rt: HostRuntime) -> io::Result<()> {
    let words: Vec<String> = env::args(&rt)?.skip(1).collect(rt.alloc())?;
    match task_of(&words) {
        Some(task) => measure(&rt, rt, task),
        None => answer_all(&rt, rt),
    }
}
