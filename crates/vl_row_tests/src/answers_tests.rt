//! What a line answers.
use crate::{recs_tests, row_tests, setter_tests};
use std::alloc::{AllocError, Global};
use std::cmp::Ordering;
use vl_row::{number, value_order};

pub(crate) fn answer(alloc: Global, line: &str) -> Result<String, AllocError> {
    if let Some((a, b)) = line.split_once('\t') {
        return order_text(alloc, a, b);
    }
    let (kind, case) = line.split_once(' ').unwrap_or((line, ""));
    match kind {
        "row" => row_tests::row_text(alloc, case),
        "batch" => row_tests::batch_text(alloc, case),
        "text" => row_tests::grows(alloc, case)?.to_string(alloc),
        "stream" => row_tests::share_a_stream(alloc, case)?.to_string(alloc),
        "falling" => setter_tests::falling_text(alloc, case),
        "check" => holds(alloc, case)?.to_string(alloc),
        _ => Ok(String::new(alloc)),
    }
}

fn order_text(alloc: Global, a: &str, b: &str) -> Result<String, AllocError> {
    let order = value_order(a, b);
    let keys = if recs_tests::stand(a, b, order) {
        ""
    } else {
        " but keys differ"
    };
    let sign = sign_of(order);
    format!(in alloc; "{sign} {:?} {:?}{keys}", number(a), number(b))
}

fn sign_of(order: Ordering) -> char {
    match order {
        Ordering::Less => '<',
        Ordering::Equal => '=',
        Ordering::Greater => '>',
    }
}

/// Returns whether the check of this name holds.
fn holds(alloc: Global, name: &str) -> Result<bool, AllocError> {
    match name {
        "is_sorted" => row_tests::is_sorted(alloc),
        "finds_fields" => row_tests::finds_fields(alloc),
        "removes_fields" => row_tests::removes_fields(alloc),
        "starts_empty" => Ok(vl_row::Text::new().as_str().is_empty()),
        "leaves_out" => row_tests::leaves_out(alloc),
        "gives_back" => row_tests::gives_back(alloc),
        "shows_its_label" => row_tests::shows_its_label(alloc),
        "keeps_items" => row_tests::keeps_items(alloc),
        "is_numbered" => row_tests::is_numbered(alloc),
        "finds_listed" => setter_tests::finds_listed(alloc),
        "has_listed_labels" => setter_tests::has_listed_labels(alloc),
        "keeps_records" => recs_tests::keeps_records(alloc),
        _ => Ok(false),
    }
}
