//! What a line answers.
use crate::{doors_tests, outcome_tests, sources_tests, vault_tests};
use std::alloc::{AllocError, Global};
use std::io;
use vl_io::ReadFault;

pub(crate) fn answer(rt: &HostRuntime, line: &str) -> io::Result<String> {
    let alloc = rt.alloc();
    let (name, number) = line.split_once(' ').unwrap_or((line, ""));
    let answer = match name {
        "write" => sources_tests::writes(alloc, number),
        "doors" => doors_tests::answers_text(alloc, number),
        "image" | "left" | "cut" => vault_text(alloc, name, number),
        "torn" | "growth" | "removal" | "newest" => outcome_text(alloc, name, number),
        "listener" => doors_tests::gives_connections(rt)?.to_string(alloc),
        _ => holds(rt, name).unwrap_or(false).to_string(alloc),
    };
    Ok(answer?)
}

fn vault_text(alloc: Global, name: &str, number: &str) -> Result<String, AllocError> {
    let number = number.parse::<u64>().unwrap_or(0);
    let answer = match name {
        "image" => vault_tests::image_text(alloc, number),
        "left" => vault_tests::left_text(alloc, number),
        _ => vault_tests::cut_text(alloc, number),
    };
    match answer {
        Ok(text) => Ok(text),
        Err(fault) => format!(in alloc; "{fault:?}"),
    }
}

fn outcome_text(alloc: Global, name: &str, pairs: &str) -> Result<String, AllocError> {
    let pairs = pairs.parse::<u64>().unwrap_or(0);
    let holds = match name {
        "torn" => outcome_tests::torn(alloc, pairs),
        "growth" => outcome_tests::growth(alloc, pairs),
        "removal" => outcome_tests::removal(alloc, pairs),
        _ => outcome_tests::newest(alloc, pairs),
    };
    holds.unwrap_or(false).to_string(alloc)
}

/// Returns whether the check of this name holds.
fn holds(rt: &HostRuntime, name: &str) -> Result<bool, ReadFault> {
    let alloc = rt.alloc();
    match name {
        "pieces" => Ok(sources_tests::gives_pieces(alloc)?),
        "kept" => Ok(sources_tests::keeps(alloc)?),
        "sure_sink" => Ok(sources_tests::sure_sink()),
        "memory_clock" => Ok(sources_tests::memory_clock(alloc)?),
        "system_clock" => Ok(sources_tests::system_clock(rt)),
        "interrupted_source" => Ok(sources_tests::interrupted_source(alloc)?),
        "interrupted_sink" => Ok(sources_tests::interrupted_sink(alloc)?),
        "groups" => sources_tests::reads_groups(alloc),
        "failed_group" => sources_tests::reads_failed_group(alloc),
        "broken_reader" => sources_tests::broken_reader(alloc),
        "long_group" => sources_tests::long_group(alloc),
        "no_listener" => Ok(doors_tests::no_listener(rt)?),
        "empty_files" => vault_tests::empty_files(alloc),
        "failing_calls" => vault_tests::failing_calls(alloc),
        "own_image" => vault_tests::own_image(alloc),
        _ => Ok(false),
    }
}
