//! Duvonka, a log database: what the program does. `run` carries the theorem.
#![tactic(auto)]

ghost use Rattle.std.specs.Prelude.{◌≡◌, ◌≢◌, ◌≤◌, length, map};
ghost use Rattle.vl_io.specs.Change.{change_of};
ghost use Rattle.part_store.specs.Reopening.{AreListedDurable};
ghost use Rattle.vl_pipe.specs.VaultChange.{vault_change};
ghost use Rattle.vl_serve.specs.Doors.{door_changes};
ghost use Rattle.vl_top.specs.Run.{IsRun, Keeps, Loads, Reads, Serves};

mod report;
mod server;
mod trial;
mod words;

use command_line::command_law;
pub use command_line::{Command, UsageFault};
pub use report::report_usage;
use server::run_server;
use std::alloc::AllocGlobal;
use std::random::RandomSource;
use std::sync::Wait;
use std::thread::Threads;
use trial::{Trial, run_trial};
use vl_io::{Clock, Doors, Sink, Source};
use vl_pipe::{Arrival, Pipe, StoredQuery, run_load, run_pipe, run_query};
pub use vl_serve::{ServeEnd, serve};
use vl_status::report_no_memory;
use vl_vault::Vault;
pub use words::read_words;

/// Does what the words ask for, and returns the status that the process ends with, and the vault.
///
/// `pipe QUERY` reads the query, then the source to its end in groups of 1,000 lines, and writes the lines of the
/// records that its pipes make of the rows that hold. `trial SEED ROWS` makes rows, and writes the answers to three
/// queries over them.
///
/// The other commands keep their batches in the vault, which stands for the directory that the words name. `load` reads
/// the source in such groups, and writes `flushed n` each time n batches are durable. `query QUERY` writes the answer
/// over the batches of the vault. `serve` serves the doors, each as often as it has visits, and settles what they
/// insert; whoever calls opens the doors at the addresses that the words say.
pub fn run<
    R: AllocGlobal + Threads + Wait + RandomSource + Sync,
    S: Source,
    O: Sink,
    E: Sink,
    V: Vault + Send,
    D: Doors + Send + Drop,
    C: Clock + Send,
>(
    rt: &R,
    words: &[&str],
    src: &mut S,
    out: &mut O,
    err: &mut E,
    vault: V,
    doors: &mut Vec<D>,
    clock: &mut C,
) -> (u8, V)
where
    D::S: Send,
    D::K: Send,
    D::C: Send,
    requires doors { length doors.old.items ≤ 64 }
    requires durable { V.is_told → AreListedDurable (V.past vault) }

    // What each status says: the answer of 0, and the cause of each other one. And what a crash may leave.
    ensures run { IsRun V.is_told (record {
      words = map (λ word. word.now) words.now;
      does = record {
        source = change_of S.left S.faults src.old src.new;
        output = change_of O.written O.faults out.old out.new;
        errors = change_of E.written E.faults err.old err.new;
        vault = vault_change V.past V.faults vault result.1;
        doors = door_changes D.left D.faults doors.old.items doors.new.items;
        moments_before = C.moments clock.old;
        moments_after = C.moments clock.new;
      };
      status = result.0;
    }) }
    ensures doors { length doors.new.items ≡ length doors.old.items }

    // Only a query that can be asked and `load` read anything, and only a server has visits.
    ensures unread { (Reads (map (λ word. word.now) words.now) → ⊥) → src.new ≡ src.old }
    ensures unvisited { (Serves (map (λ word. word.now) words.now) → ⊥) → doors.new ≡ doors.old }

    // Only `load`, `query` and `serve` make calls on the vault.
    ensures unkept { (Keeps (map (λ word. word.now) words.now) → ⊥) → result.1 ≡ vault }

    // Only an answer is written to the output, and by `load` whole lines.
    ensures untouched { result.0 ≢ 0 → result.0 ≢ 4 → (Loads (map (λ word. word.now) words.now) → ⊥)
        → out.new ≡ out.old }
{
    command_law();
    match read_words(rt.alloc(), words) {
        Ok(
            Command::Pipe {
                stream_fields,
                query,
            },
        ) => {
            let Ok(arrival) = Arrival::at(rt.alloc(), &stream_fields, clock.now()) else {
                return (report_no_memory(err).number(), vault);
            };
            let asked = Pipe { arrival, query };
            (run_pipe(rt, &asked, src, out, err).number(), vault)
        }
        Ok(Command::Load { stream_fields, .. }) => {
            let Ok(arrival) = Arrival::at(rt.alloc(), &stream_fields, clock.now()) else {
                return (report_no_memory(err).number(), vault);
            };
            let (status, vault) = run_load(rt, &arrival, vault, src, out, err);
            (status.number(), vault)
        }
        Ok(Command::Query { query, .. }) => {
            let asked = StoredQuery {
                text: query.as_str(),
                moment: clock.now(),
            };
            let (status, vault) = run_query(rt, &asked, vault, out, err);
            (status.number(), vault)
        }
        Ok(Command::Trial { seed, rows }) => {
            let status = run_trial(rt, Trial { seed, rows }, out, err, clock);
            (status.number(), vault)
        }
        Ok(Command::Serve { .. }) => {
            let (status, vault) = run_server(rt, vault, err, doors, clock);
            (status.number(), vault)
        }
        Err(UsageFault::Usage) => (report_usage(err).number(), vault),
        Err(UsageFault::Memory) => (report_no_memory(err).number(), vault),
    }
}
