//! Duvonka, a log database: the program. What it does is `vl_top::run`.
#![tactic(auto)]

ghost use Rattle.std.specs.Prelude.{◌≡◌, ◌*◌, ◌≤◌, IfOk, map, vec_len};
ghost use Rattle.vl_io.specs.Adapters.{kind_of};
ghost use Rattle.part_store.specs.Reopening.{AreListedDurable};
ghost use Rattle.duvonka.specs.Workers.{AreFewWorkers, all_http, in_turn, kinds_for};

mod addresses;

use addresses::{Address, address_part, report_addresses, report_both};
use std::alloc::{AllocError, AllocGlobal};
use std::env;
use std::io::ErrorKind;
use std::process::ExitCode;
use std::random::RandomSource;
use std::sync::Wait;
use std::thread::Threads;
use vl_io::{InputSource, Listening, OutputSink, Sink, SystemClock, TcpDoors, VisitKind};
use vl_status::report_no_memory;
use vl_top::{Command, UsageFault, read_words, report_usage, run};
use vl_vault::{DirVault, MemoryVault, Vault};

fn main(rt: HostRuntime) -> ExitCode {
    let mut err = OutputSink::new(rt.stderr());
    let status = match words_of(&rt) {
        Ok(words) => run_words(&rt, rt, &words, &mut err),
        Err(UsageFault::Usage) => report_usage(&mut err).number(),
        Err(UsageFault::Memory) => report_no_memory(&mut err).number(),
    };
    ExitCode::from(status)
}

/// Runs the command that the words are. Its vault is the directory that they name, and for a command without one a
/// vault in memory, which is not used.
fn run_words<R: AllocGlobal + Threads + Wait + RandomSource + Sync, E: Sink>(
    threads: &R,
    rt: HostRuntime,
    words: &[String],
    err: &mut E,
) -> u8 {
    let borrowed = words.iter().map(|word| word.as_str()).collect(rt.alloc());
    let Ok(borrowed): Result<Vec<&str>, AllocError> = borrowed else {
        return report_no_memory(err).number();
    };
    let words = borrowed.as_slice();
    match kept_by(rt, words) {
        Ok(Kept::Nowhere) => match MemoryVault::of(rt.alloc(), &[]) {
            Ok(vault) => run_over(threads, rt, words, vault, err),
            Err(AllocError) => report_no_memory(err).number(),
        },
        Ok(Kept::Directory(vault)) => run_over(threads, rt, words, vault, err),
        Err(AllocError) => report_no_memory(err).number(),
    }
}

/// Where the batches of a command are kept.
enum Kept {
    Nowhere,
    Directory(DirVault<HostRuntime>),
}

/// Returns where the words have the batches kept.
fn kept_by(rt: HostRuntime, words: &[&str]) -> Result<Kept, AllocError> {
    match read_words(rt.alloc(), words) {
        Ok(command) => kept_for(rt, &command),
        Err(UsageFault::Usage) => Ok(Kept::Nowhere),
        Err(UsageFault::Memory) => Err(AllocError),
    }
}

/// Returns where a command keeps its batches. A query only reads its directory, and does not create it.
fn kept_for(rt: HostRuntime, command: &Command) -> Result<Kept, AllocError> {
    match command {
        Command::Load { dir, .. } => opened(rt, dir.as_str()),
        Command::Serve { dir, .. } => opened(rt, dir.as_str()),
        Command::Query { dir, .. } => {
            let vault = DirVault::open_for_reading(rt, rt.alloc(), dir.as_str())?;
            Ok(Kept::Directory(vault))
        }
        Command::Pipe { .. } => Ok(Kept::Nowhere),
        Command::Trial { .. } => Ok(Kept::Nowhere),
    }
}

/// Opens the directory for writing. It is created if it is not there.
fn opened(rt: HostRuntime, directory: &str) -> Result<Kept, AllocError> {
    let vault = DirVault::open(rt, rt.alloc(), directory)?;
    Ok(Kept::Directory(vault))
}

/// Runs the command over the vault, the standard streams, and its listeners.
fn run_over<R: AllocGlobal + Threads + Wait + RandomSource + Sync, V: Vault + Send + Drop, E: Sink>(
    threads: &R,
    rt: HostRuntime,
    words: &[&str],
    vault: V,
    err: &mut E,
) -> u8
    requires { V.is_told → AreListedDurable (V.past vault) }
{
    let mut src = InputSource::new(rt.stdin());
    let mut out = OutputSink::new(rt.stdout());
    let mut clock = SystemClock::new(rt);
    let Ok(mut doors) = doors_for(rt, words, err) else {
        return report_no_memory(err).number();
    };
    let (status, _) = run(
        threads, words, &mut src, &mut out, err, vault, &mut doors, &mut clock,
    );
    status
}

/// Returns the words after the program's name. One that is not UTF-8 makes them no command.
fn words_of(rt: &HostRuntime) -> Result<Vec<String>, UsageFault> {
    match env::args(rt) {
        Ok(words) => words
            .skip(1)
            .collect(rt.alloc())
            .map_err(|_| UsageFault::Memory),
        Err(fault) if fault.kind() == ErrorKind::InvalidData => Err(UsageFault::Usage),
        Err(_) => Err(UsageFault::Memory),
    }
}

/// Returns the doors that the words ask for, and none where they ask for none. Where they listen, and where they
/// cannot, is said on the error stream.
fn doors_for<E: Sink>(
    rt: HostRuntime,
    words: &[&str],
    err: &mut E,
) -> Result<Vec<TcpDoors<HostRuntime>>, AllocError>
    ensures { IfOk result (λ doors. vec_len doors ≤ 64) }
{
    match read_words(rt.alloc(), words) {
        Ok(command) => doors_of(rt, &command, err),
        Err(UsageFault::Usage) => Ok(Vec::new(rt.alloc())),
        Err(UsageFault::Memory) => Err(AllocError),
    }
}

/// Returns the doors of a command: as many at each address as there are workers, and none for another command.
fn doors_of<E: Sink>(
    rt: HostRuntime,
    command: &Command,
    err: &mut E,
) -> Result<Vec<TcpDoors<HostRuntime>>, AllocError>
    requires { AreFewWorkers command.now }
    ensures doors { IfOk result (λ doors. map kind_of doors.items ≡ kinds_for command.now) }
    ensures few { IfOk result (λ doors. vec_len doors ≤ 64) }
{
    let Command::Serve {
        http,
        syslog,
        workers,
        ..
    } = command
    else {
        return Ok(Vec::new(rt.alloc()));
    };
    let pages = Listening::at(&rt, rt.alloc(), http.as_str())?;
    let first = Address {
        protocol: "http",
        asked: http.as_str(),
        listening: &pages,
        workers: *workers,
    };
    let Some(syslog) = syslog else {
        let part = address_part(rt.alloc(), err, &first)?;
        report_addresses(rt.alloc(), err, part.as_str(), "")?;
        return doors_for_pages(rt, &pages, *workers);
    };
    let senders = Listening::at(&rt, rt.alloc(), syslog.as_str())?;
    let second = Address {
        protocol: "syslog",
        asked: syslog.as_str(),
        listening: &senders,
        workers: *workers,
    };
    report_both(rt.alloc(), err, &first, &second)?;
    doors_in_turn(rt, &pages, &senders, *workers)
}

/// Returns this many doors for HTTP.
fn doors_for_pages(
    rt: HostRuntime,
    pages: &Listening,
    count: u32,
) -> Result<Vec<TcpDoors<HostRuntime>>, AllocError>
    ensures kinds { IfOk result (λ doors. map kind_of doors.items ≡ all_http count) }
    ensures count { IfOk result (λ doors. vec_len doors ≡ count) }
{
    let mut doors = Vec::new(rt.alloc());
    for _ in 0..count {
        doors.push(pages.door(rt, rt.alloc(), VisitKind::Http)?)?;
    }
    Ok(doors)
}

/// Returns this many doors of each kind, in turn. A thread that has to take several doors begins with the last of them,
/// so each pair ends with one for HTTP.
fn doors_in_turn(
    rt: HostRuntime,
    pages: &Listening,
    senders: &Listening,
    count: u32,
) -> Result<Vec<TcpDoors<HostRuntime>>, AllocError>
    ensures kinds { IfOk result (λ doors. map kind_of doors.items ≡ in_turn count) }
    ensures count { IfOk result (λ doors. vec_len doors ≡ 2 * count) }
{
    let mut doors = Vec::new(rt.alloc());
    for _ in 0..count {
        doors.push(senders.door(rt, rt.alloc(), VisitKind::Syslog)?)?;
        doors.push(pages.door(rt, rt.alloc(), VisitKind::Http)?)?;
    }
    Ok(doors)
}
