//! What a case answers.
use crate::records_tests::records_of;
use crate::{filters_tests, pipes_tests};
use lq_ast::{Pipe, Query};
use lq_parse::parse;
use lq_tuple::HashSeed;
use std::alloc::{AllocError, Global};
use vl_row::FieldList;

pub(crate) fn answer(alloc: Global, seed: HashSeed, case: &str) -> Result<String, AllocError> {
    let (text, records) = case.split_once('\t').unwrap_or((case, ""));
    let records = records_of(alloc, records)?;
    match parse(alloc, text) {
        Ok(query) => of_query(alloc, seed, &query, records.as_slice()),
        Err(_) => String::from_str(alloc, "no query"),
    }
}

fn of_query(
    alloc: Global,
    seed: HashSeed,
    query: &Query,
    records: &[FieldList],
) -> Result<String, AllocError> {
    match query.pipes.as_slice().first() {
        Some(Pipe::Sort(pipe)) => pipes_tests::of_sort(alloc, seed, pipe, records),
        Some(Pipe::Uniq(pipe)) => pipes_tests::of_uniq(alloc, seed, pipe, records),
        Some(Pipe::Top(pipe)) => pipes_tests::of_top(alloc, seed, pipe, records),
        Some(Pipe::Stats(pipe)) => pipes_tests::of_stats(alloc, seed, pipe, records),
        _ => filters_tests::answer(alloc, query, records),
    }
}
