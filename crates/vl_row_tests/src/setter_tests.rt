//! Fields that come in any order, and names that are looked up in a list.
use field_setter::FieldSetter;
use std::alloc::{AllocError, Global};
use vl_row::{FieldList, Names, Row, Text};

/// Returns the fields of this many members, whose names fall from the largest. Members 7 and 8 come again: 7 with
/// another value, and 8 with the empty one.
fn falling(alloc: Global, count: u32) -> Result<FieldList, AllocError> {
    let mut setter = FieldSetter::new(alloc, FieldList::new(alloc));
    for i in 0..count {
        let name = format!(in alloc; "n{}", 10_000 + u64::from(count - i))?;
        if name.len() > 0 {
            setter.set(alloc, name.as_str(), "first")?;
        }
    }
    setter.set(alloc, "n10007", "again")?;
    setter.set(alloc, "n10008", "")?;
    setter.finish()
}

fn shown(alloc: Global, list: &FieldList) -> Result<String, AllocError> {
    let mut text = String::new(alloc);
    for field in list.as_slice() {
        write!(text, "{}={} ", field.name(), field.value())?;
    }
    Ok(text)
}

/// Returns the fields of this many members in their order.
pub fn falling_text(alloc: Global, count: &str) -> Result<String, AllocError> {
    let list = falling(alloc, count.parse::<u32>().unwrap_or(0))?;
    shown(alloc, &list)
}

fn texts(alloc: Global, names: &[&str]) -> Result<Vec<Text>, AllocError> {
    let mut list = Vec::new(alloc);
    for name in names {
        list.push(Text::try_of(alloc, name)?)?;
    }
    Ok(list)
}

/// Returns whether names are found that were listed in no order, one of them twice, and their fields are removed.
pub fn finds_listed(alloc: Global) -> Result<bool, AllocError> {
    let names = Names::try_of(alloc, texts(alloc, &["c", "a", "e", "a", "bb"])?.as_slice())?;
    let mut list = FieldList::new(alloc);
    list.set(alloc, "a", "1")?;
    list.set(alloc, "b", "2")?;
    list.set(alloc, "bb", "3")?;
    list.set(alloc, "f", "4")?;
    list.remove_listed(&names);
    Ok(
        names.has("a")
            && names.has("bb")
            && !names.has("b")
            && !names.has("")
            && !names.has("f")
            && list.len() == 2
            && list.get("b") == "2"
            && list.get("f") == "4"
            && !Names::new(alloc).has("a"),
    )
}

/// Returns whether a row's labels are its fields whose names are listed.
pub fn has_listed_labels(alloc: Global) -> Result<bool, AllocError> {
    let names = Names::try_of(alloc, texts(alloc, &["host", "app", "none"])?.as_slice())?;
    let mut list = FieldList::new(alloc);
    list.set(alloc, "_msg", "hello")?;
    list.set(alloc, "app", "x")?;
    list.set(alloc, "host", "y")?;
    let Ok(row) = Row::try_listed(alloc, 7, &names, list) else {
        return Ok(false);
    };
    let labels = row.stream();
    Ok(
        row.time() == 7
            && row.fields().len() == 3
            && labels.len() == 2
            && labels.value("app") == "x"
            && labels.value("host") == "y",
    )
}
