//! One session over the standard streams, at a desk of its own. With the word `http` it reads requests and writes the
//! replies to them; with `syslog` it takes messages in and writes how many. With `inserts` it reads lines and inserts
//! them 100 times, in one thread or, with one more word, in each of four, and writes how many microseconds that took.
use crate::inserts_tests::insert_all;
use log_desk::Desk;
use std::alloc::AllocGlobal;
use std::io::{self, Read};
use std::random::RandomSource;
use std::sync::Wait;
use std::thread::Threads;
use std::time::Instant;
use vl_io::{InputSource, OutputSink, SystemClock};
use vl_session::{serve_session, syslog_session};

/// What is measured.
#[derive(Clone, Copy)]
pub(crate) enum Task {
    Http,
    Syslog,
    Inserts { four: bool },
}

/// Returns what these words ask for, or nothing where they name no task.
pub(crate) fn task_of(words: &[String]) -> Option<Task> {
    match words.first().map(|word| word.as_str()) {
        Some("http") => Some(Task::Http),
        Some("syslog") => Some(Task::Syslog),
        Some("inserts") => Some(Task::Inserts {
            four: words.len() > 1,
        }),
        _ => None,
    }
}

/// Serves the session.
pub(crate) fn measure<R: AllocGlobal + Threads + Wait + RandomSource + Sync>(
    handle: &R,
    rt: HostRuntime,
    task: Task,
) -> io::Result<()> {
    let (desk, mut pass) = Desk::fresh(handle, rt.alloc(), 4)?;
    let mut src = InputSource::new(rt.stdin());
    let mut clock = SystemClock::new(rt);
    match task {
        Task::Syslog => {
            let report = syslog_session(handle, rt.alloc(), &desk, &mut pass, &mut src, &mut clock);
            println!(rt;
                "accepted {}, refused {}, {:?}",
                report.accepted, report.refused, report.end
            )
        }
        Task::Inserts { four } => {
            let mut body = Vec::new(rt.alloc());
            rt.stdin().read_to_end(&mut body)?;
            let start = Instant::now(&rt)?;
            let done = insert_all(handle, &desk, pass, &body, if four { 3 } else { 0 })?;
            let spent = start.elapsed(&rt)?.as_micros();
            println!(rt; "inserted: {done}, in {spent} microseconds")
        }
        Task::Http => {
            let mut out = OutputSink::new(rt.stdout());
            let _ = serve_session(
                handle,
                rt.alloc(),
                &desk,
                &mut pass,
                &mut src,
                &mut out,
                &mut clock,
            );
            Ok(())
        }
    }
}
