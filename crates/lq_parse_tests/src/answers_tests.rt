//! What a line answers.
use crate::pipes_tests::push_pipes;
use crate::shown_tests::{DEPTH, push_filter};
use crate::tokens_tests;
use lq_ast::Query;
use lq_parse::parse;
use std::alloc::{AllocError, Global};

pub(crate) fn answer(alloc: Global, line: &str) -> Result<String, AllocError> {
    match line.strip_prefix("#tokens ") {
        Some(text) => tokens_tests::answer(alloc, text),
        None => said(alloc, line),
    }
}

fn said(alloc: Global, text: &str) -> Result<String, AllocError> {
    match parse(alloc, text) {
        Ok(query) => shown(alloc, &query),
        Err(fault) => format!(in alloc; "{fault}"),
    }
}

/// Returns a query as text.
fn shown(alloc: Global, query: &Query) -> Result<String, AllocError> {
    let mut text = String::new(alloc);
    push_filter(&query.filter, DEPTH, &mut text)?;
    push_pipes(query.pipes.as_slice(), &mut text)?;
    Ok(text)
}
