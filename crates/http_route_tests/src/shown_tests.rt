//! The options of an insert, as text.
use crate::spelling_tests::push_spelled;
use ingest_row::Options;
use std::alloc::AllocError;
use vl_row::Text;

pub fn push_options(options: &Options, out: &mut String) -> Result<(), AllocError> {
    out.push_str("insert, streams")?;
    push_names(options.stream_fields(), out)?;
    out.push_str(", time ")?;
    push_spelled(options.time_field().as_bytes(), out)?;
    out.push_str(", messages")?;
    push_names(options.message_fields(), out)?;
    out.push_str(", ignored")?;
    push_names(options.ignored_fields(), out)?;
    out.push_str(", extra")?;
    for field in options.extra_fields() {
        out.push(' ')?;
        push_spelled(field.name().as_bytes(), out)?;
        out.push('=')?;
        push_spelled(field.value().as_bytes(), out)?;
    }
    Ok(())
}

fn push_names(names: &[Text], out: &mut String) -> Result<(), AllocError> {
    for name in names {
        out.push(' ')?;
        push_spelled(name.as_str().as_bytes(), out)?;
    }
    Ok(())
}
