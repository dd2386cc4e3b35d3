//! Records of a query, and the keys of texts.
use std::alloc::{AllocError, Global};
use std::cmp::Ordering;
use vl_row::{FieldList, Recs, ValueKey};

fn record(alloc: Global, value: &str) -> Result<FieldList, AllocError> {
    let mut fields = FieldList::new(alloc);
    fields.set(alloc, "x", value)?;
    Ok(fields)
}

/// Returns whether records stay as they were pushed.
pub fn keeps_records(alloc: Global) -> Result<bool, AllocError> {
    let mut records = Recs::new(alloc);
    let was_empty = records.is_empty();
    if let Err((fault, _)) = records.push(record(alloc, "b")?) {
        return Err(fault);
    }
    if let Err((fault, _)) = records.push(record(alloc, "a")?) {
        return Err(fault);
    }
    let whole = records.len() == 2 && records.as_slice().len() == 2;
    let placed = records.len() > 1
        && records.at(0).get("x") == "b"
        && records.at(1).get("x") == "a";
    Ok(was_empty && whole && placed && Recs::of(records.into_vec()).len() == 2)
}

/// Returns whether the keys of two texts stand so to each other, by each way to compare them.
pub fn stand(a: &str, b: &str, order: Ordering) -> bool {
    let (a, b) = (ValueKey::of(a), ValueKey::of(b));
    let equal = order == Ordering::Equal;
    a.cmp(&b) == order && a.partial_cmp(&b) == Some(order) && (a == b) == equal
}
