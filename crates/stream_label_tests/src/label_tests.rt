//! Labels and ids of streams.
use std::alloc::{AllocError, Global};
use std::io;
use stream_label::{label_text, stream_id};
use vl_row::{FieldList, Row, Stream, Text};

pub fn print_case(rt: &HostRuntime, names: &str, fields: &str) -> io::Result<()> {
    let Some(row) = row_of(rt.alloc(), names, fields)? else {
        return println!(rt; "no row");
    };
    let shown = shown(rt.alloc(), row.stream())?;
    println!(rt;
        "{} {} {}",
        row.stream().len(),
        row.fields().len(),
        shown.as_str()
    )
}

/// Returns the row with these fields, of which those with these names are labels, or `None` if they do not make a row.
fn row_of(alloc: Global, names: &str, fields: &str) -> Result<Option<Row>, AllocError> {
    let names = texts_of(alloc, names)?;
    let fields = fields_of(alloc, fields)?;
    Ok(Row::try_new(alloc, 0, names.as_slice(), fields).ok())
}

fn texts_of(alloc: Global, names: &str) -> Result<Vec<Text>, AllocError> {
    let mut texts = Vec::new(alloc);
    for name in names.split(',') {
        texts.push(Text::try_of(alloc, name)?)?;
    }
    Ok(texts)
}

fn fields_of(alloc: Global, fields: &str) -> Result<FieldList, AllocError> {
    let mut list = FieldList::new(alloc);
    for field in fields.split('\t') {
        if let Some((name, value)) = field.split_once('=') {
            if !name.is_empty() {
                list.set(alloc, name, value)?;
            }
        }
    }
    Ok(list)
}

/// Returns the labels and the id of a stream, each appended to a text.
fn shown(alloc: Global, stream: &Stream) -> Result<Text, AllocError> {
    let mut shown = Text::try_of(alloc, "> ")?;
    label_text(alloc, stream, &mut shown)?;
    shown.push_str(alloc, " ")?;
    stream_id(alloc, stream, &mut shown)?;
    Ok(shown)
}
