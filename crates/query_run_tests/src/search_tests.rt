//! What `read_query` and `answer` give for the same text.
use crate::run_tests::NOW;
use log_core::Snapshot;
use part_file::Part;
use query_run::{QueryRefusal, SearchFault, Steps, answer, read_query};
use std::alloc::{AllocError, Global};
use std::random::RandomSource;
use vl_row::Text;

/// Tells the counter of a search from others.
#[derive(Drop)]
struct Search;

/// What a search gives.
#[derive(Drop)]
pub(crate) struct Told {
    /// The lines of the answer, or the fault as a line.
    pub(crate) said: String,
    /// How many steps it took.
    pub(crate) steps: u64,
}

/// Returns what a search for this text gives over a look.
pub(crate) fn searched<R: RandomSource>(
    rt: &R,
    alloc: Global,
    text: &str,
    snapshot: &Snapshot<Part>,
) -> Result<Told, AllocError> {
    let mut steps = Steps::<Search>::new();
    let said = match read_query(alloc, text) {
        Ok(search) => answered(alloc, answer(rt, alloc, snapshot, &search, NOW, &mut steps))?,
        Err(QueryRefusal::Unspelled(_)) => format!(in alloc; "unspelled\n")?,
        Err(QueryRefusal::Pattern { nth }) => format!(in alloc; "regex {nth}\n")?,
        Err(QueryRefusal::Memory) => format!(in alloc; "memory\n")?,
    };
    Ok(Told {
        said,
        steps: steps.count(),
    })
}

fn answered(alloc: Global, answer: Result<Text, SearchFault>) -> Result<String, AllocError> {
    match answer {
        Ok(lines) => format!(in alloc; "{}", lines.as_str()),
        Err(SearchFault::ManyRows) => format!(in alloc; "many\n"),
        Err(SearchFault::Overflow { name }) => format!(in alloc; "overflow {}\n", name.as_str()),
        Err(SearchFault::Memory) => format!(in alloc; "memory\n"),
    }
}
