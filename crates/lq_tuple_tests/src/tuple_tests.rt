//! Tuples in a small notation.
use lq_tuple::{Places, Texts, is_wholly_empty, read_tuple, tuple_text};
use std::alloc::{AllocError, Global};
use vl_row::{FieldList, Text};

/// Returns the text of the tuple of a case, its number, the values that are read back, and whether the tuple is wholly
/// empty.
pub fn answer(
    alloc: Global,
    case: &str,
    places: &mut Places,
    texts: &mut Texts,
) -> Result<String, AllocError> {
    let (names, fields) = case.split_once('\t').unwrap_or((case, ""));
    let names = texts_of(alloc, names)?;
    let fields = fields_of(alloc, fields)?;
    let mut scratch = String::new(alloc);
    let text = tuple_text(&mut scratch, names.as_slice(), &fields)?;
    texts.add(alloc, text)?;
    let number = places.place(alloc, text)?;
    let mut answer = format!(in alloc; "{number} {text} ")?;
    for value in read_tuple(alloc, text, names.len())? {
        write!(answer, "[{}]", value.as_str())?;
    }
    if is_wholly_empty(names.as_slice(), &fields) {
        answer.push_str(" empty")?;
    }
    Ok(answer)
}

fn texts_of(alloc: Global, names: &str) -> Result<Vec<Text>, AllocError> {
    let mut texts = Vec::new(alloc);
    if !names.is_empty() {
        for name in names.split(',') {
            texts.push(Text::try_of(alloc, name)?)?;
        }
    }
    Ok(texts)
}

fn fields_of(alloc: Global, text: &str) -> Result<FieldList, AllocError> {
    let mut fields = FieldList::new(alloc);
    for part in text.split('&') {
        if let Some((name, value)) = part.split_once('=') {
            if !name.is_empty() {
                fields.set(alloc, name, value)?;
            }
        }
    }
    Ok(fields)
}
