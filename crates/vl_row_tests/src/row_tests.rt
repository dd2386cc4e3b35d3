//! Texts, fields, streams, rows and batches.
use std::alloc::{AllocError, Global};
use vl_row::{Batch, FieldList, Items, Numbered, Row, RowFault, Text};

fn list_of(alloc: Global, fields: &[(&str, &str)]) -> Result<FieldList, AllocError> {
    let mut list = FieldList::with_room(alloc, fields.len())?;
    for (name, value) in fields {
        if name.len() > 0 {
            list.set(alloc, name, value)?;
        }
    }
    Ok(list)
}

fn shown(alloc: Global, list: &FieldList) -> Result<String, AllocError> {
    let mut text = String::new(alloc);
    for field in list.as_slice() {
        text.push_str(field.name())?;
        text.push('=')?;
        text.push_str(field.value())?;
        text.push(' ')?;
    }
    Ok(text)
}

fn repeated(alloc: Global, count: usize) -> Result<String, AllocError> {
    String::from_utf8_lossy(alloc, &vec![in alloc; b'v'; count]?)
}

/// Returns this many fields, whose names and values have these lengths.
fn fields_like(
    alloc: Global,
    count: usize,
    name_len: usize,
    value_len: usize,
) -> Result<FieldList, AllocError> {
    let value = repeated(alloc, value_len)?;
    let mut list = FieldList::new(alloc);
    for i in 0..count {
        let mut name = format!(in alloc; "{i}")?;
        for _ in name.len()..name_len {
            name.push('n')?;
        }
        if name.len() > 0 {
            list.set(alloc, name.as_str(), value.as_str())?;
        }
    }
    Ok(list)
}

const SET: &[(&str, &str)] = &[
    ("b", "1"),
    ("a", "2"),
    ("é", "3"),
    ("Z", "4"),
    ("a", "5"),
    ("c", "6"),
    ("c", ""),
];

/// Returns whether the fields are sorted, and each name has its last value.
pub fn is_sorted(alloc: Global) -> Result<bool, AllocError> {
    let list = list_of(alloc, SET)?;
    Ok(shown(alloc, &list)?.as_str() == "Z=4 a=5 b=1 é=3 ")
}

/// Returns whether fields are found, and missing ones are not.
pub fn finds_fields(alloc: Global) -> Result<bool, AllocError> {
    let list = list_of(alloc, SET)?;
    Ok(
        list.get("a") == "5"
            && list.get("c").is_empty()
            && list.place_of("b") == Ok(2)
            && list.place_of("c") == Err(3)
            && list.len() == 4
            && !list.is_empty(),
    )
}

/// Returns whether a field is removed, and a copy shows the others.
pub fn removes_fields(alloc: Global) -> Result<bool, AllocError> {
    let mut list = list_of(alloc, SET)?;
    list.remove("b");
    list.remove("c");
    Ok(shown(alloc, &list.try_copy(alloc)?)?.as_str() == "Z=4 a=5 é=3 ")
}

/// Returns the number that a text is, or 0.
pub fn count_of(text: &str) -> usize {
    text.parse::<u32>().unwrap_or(0) as usize
}

/// Returns whether a text of this many bytes is copied, and grows by this many more.
pub fn grows(alloc: Global, case: &str) -> Result<bool, AllocError> {
    let (len, more) = case.split_once(' ').unwrap_or((case, ""));
    let mut whole = repeated(alloc, count_of(len))?;
    let mut text = Text::try_of(alloc, whole.as_str())?;
    let copied = text.try_copy(alloc)?.as_str() == whole.as_str();
    let end = repeated(alloc, count_of(more))?;
    whole.push_str(end.as_str())?;
    text.push_str(alloc, end.as_str())?;
    Ok(copied && text.as_str() == whole.as_str())
}

/// Returns the time of a row of such fields and how many it has, or the fault and how many come back.
pub fn row_text(alloc: Global, case: &str) -> Result<String, AllocError> {
    let (time, rest) = case.split_once(' ').unwrap_or((case, ""));
    let (count, rest) = rest.split_once(' ').unwrap_or((rest, ""));
    let (name_len, value_len) = rest.split_once(' ').unwrap_or((rest, ""));
    let (name_len, value_len) = (count_of(name_len), count_of(value_len));
    let list = fields_like(alloc, count_of(count), name_len, value_len)?;
    match Row::try_new(alloc, time.parse::<i64>().unwrap_or(0), &[], list) {
        Ok(row) => format!(in alloc; "{} {}", row.time(), row.fields().len()),
        Err((fault, list)) => format!(in alloc; "{fault:?} {}", list.len()),
    }
}

const RESERVED: &[(&str, &str)] = &[("_time", "x"), ("_stream", "y"), ("_stream_id", "z")];

/// Returns whether a row leaves out the reserved names, and nothing else.
pub fn leaves_out(alloc: Global) -> Result<bool, AllocError> {
    let mut list = list_of(alloc, RESERVED)?;
    list.set(alloc, "_times", "k")?;
    list.set(alloc, "a", "1")?;
    let Ok(row) = Row::try_new(alloc, 7, &[], list) else {
        return Ok(false);
    };
    let row = row.try_copy(alloc)?;
    Ok(
        shown(alloc, row.fields())?.as_str() == "_times=k a=1 "
            && row.weight() == 9
            && row.value("a") == "1"
            && row.value("_time").is_empty(),
    )
}

/// Returns whether a row of reserved names only is refused, and gives them back.
pub fn gives_back(alloc: Global) -> Result<bool, AllocError> {
    let Err((fault, list)) = Row::try_new(alloc, 7, &[], list_of(alloc, RESERVED)?) else {
        return Ok(false);
    };
    Ok(
        fault == RowFault::Empty
            && shown(alloc, &list)?.as_str() == "_stream=y _stream_id=z _time=x ",
    )
}

/// Returns how many rows a batch has, each of one field `a` with 262,143 bytes, or the fault and how many come back.
pub fn batch_text(alloc: Global, count: &str) -> Result<String, AllocError> {
    let mut list = FieldList::new(alloc);
    list.set(alloc, "a", repeated(alloc, 262_143)?.as_str())?;
    let Ok(heavy) = Row::try_new(alloc, 0, &[], list) else {
        return format!(in alloc; "no row");
    };
    let mut rows = Vec::new(alloc);
    for _ in 0..count_of(count) {
        rows.push(heavy.try_copy(alloc)?)?;
    }
    match Batch::try_of(rows) {
        Ok(batch) => format!(in alloc; "{}", batch.rows().len()),
        Err((fault, rows)) => format!(in alloc; "{fault:?} {}", rows.len()),
    }
}

/// Returns the row of these two fields, of which `app` is a label. None where they make no row.
fn labelled(alloc: Global, app: &str, message: &str) -> Result<Option<Row>, AllocError> {
    let mut list = FieldList::new(alloc);
    list.set(alloc, "app", app)?;
    list.set(alloc, "_msg", message)?;
    let name = Text::try_of(alloc, "app")?;
    Ok(Row::try_new(alloc, 0, &[name], list).ok())
}

/// Returns whether the stream of a row shows its one label.
pub fn shows_its_label(alloc: Global) -> Result<bool, AllocError> {
    let Some(row) = labelled(alloc, "x", "1")? else {
        return Ok(false);
    };
    let stream = row.stream();
    Ok(
        stream.len() == 1
            && !stream.is_empty()
            && stream.label(0).name() == "app"
            && stream.value("app") == "x"
            && stream.value("_msg").is_empty(),
    )
}

/// Returns whether the rows with these labels have the same stream.
pub fn share_a_stream(alloc: Global, case: &str) -> Result<bool, AllocError> {
    let (app, other) = case.split_once(' ').unwrap_or((case, ""));
    match (labelled(alloc, app, "1")?, labelled(alloc, other, "2")?) {
        (Some(row), Some(other)) => Ok(row.stream().is_same(other.stream())),
        _ => Ok(false),
    }
}

/// Returns whether items stay as they were pushed.
pub fn keeps_items(alloc: Global) -> Result<bool, AllocError> {
    let mut items = Items::of(Vec::new(alloc));
    if let Err((fault, _)) = items.push(3u8) {
        return Err(fault);
    }
    if let Err((fault, _)) = items.push(1) {
        return Err(fault);
    }
    Ok(items.as_slice() == [3, 1].as_slice() && items.into_vec().as_slice() == [3, 1].as_slice())
}

/// Returns whether a numbered row has the parts that it was made of.
pub fn is_numbered(alloc: Global) -> Result<bool, AllocError> {
    let Some(row) = labelled(alloc, "x", "1")? else {
        return Ok(false);
    };
    let numbered = Numbered {
        batch: 7,
        place: 2,
        row,
    };
    Ok(numbered.batch == 7 && numbered.place == 2 && numbered.row.value("app") == "x")
}
