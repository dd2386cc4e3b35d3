//! Records in a small notation.
use std::alloc::{AllocError, Global};
use vl_row::{FieldList, Recs};

/// Returns the records of a case.
pub(crate) fn records_of(alloc: Global, records: &str) -> Result<Recs, AllocError> {
    let mut list = Vec::new(alloc);
    for record in records.split('\t') {
        if !record.is_empty() {
            list.push(record_of(alloc, record)?)?;
        }
    }
    Ok(Recs::of(list))
}

fn record_of(alloc: Global, fields: &str) -> Result<FieldList, AllocError> {
    let mut record = FieldList::new(alloc);
    for field in fields.split('&') {
        if let Some((name, value)) = field.split_once('=') {
            if !name.is_empty() {
                record.set(alloc, name, value)?;
            }
        }
    }
    Ok(record)
}

pub(crate) fn copies(alloc: Global, records: &[FieldList]) -> Result<Recs, AllocError> {
    let mut copies = Vec::with_capacity(alloc, records.len())?;
    for record in records {
        copies.push(record.try_copy(alloc)?)?;
    }
    Ok(Recs::of(copies))
}

/// Returns the records in the notation, if all versions made the same.
pub(crate) fn shown(alloc: Global, plain: &Recs, shipped: &[Recs]) -> Result<String, AllocError> {
    let plain = plain.as_slice();
    if !shipped.iter().all(|made| are_same(plain, made.as_slice())) {
        return String::from_str(alloc, "differ");
    }
    let mut text = String::new(alloc);
    let mut ahead = "";
    for record in plain {
        text.push_str(ahead)?;
        push_record(&mut text, record)?;
        ahead = "\t";
    }
    Ok(text)
}

fn push_record(text: &mut String, record: &FieldList) -> Result<(), AllocError> {
    let mut ahead = "";
    for field in record.as_slice() {
        write!(text, "{ahead}{}={}", field.name(), field.value())?;
        ahead = "&";
    }
    Ok(())
}

/// Returns whether these are the same records in the same order.
fn are_same(some: &[FieldList], others: &[FieldList]) -> bool {
    some.len() == others.len() && some.iter().zip(others).all(|(a, b)| is_same(a, b))
}

fn is_same(some: &FieldList, other: &FieldList) -> bool {
    let mut fields = some.as_slice().iter().zip(other.as_slice());
    some.len() == other.len() && fields.all(|(a, b)| a.is_same(b))
}
