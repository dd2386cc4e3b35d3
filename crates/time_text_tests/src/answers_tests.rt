//! The results of parsing and formatting.
use std::alloc::{AllocError, Global};
use time_text::{day_of, plain, read_bound, read_duration, read_moment, write_moment};
use vl_row::Text;

pub fn answer(alloc: Global, line: &str) -> Result<String, AllocError> {
    if let Some(bound) = line.strip_prefix("bound ") {
        return bound_answer(alloc, bound);
    }
    if let Some(duration) = line.strip_prefix("duration ") {
        return duration_answer(alloc, duration);
    }
    moment_answer(alloc, line)
}

fn bound_answer(alloc: Global, text: &str) -> Result<String, AllocError> {
    match read_bound(text) {
        Ok(span) => format!(in alloc; "{} {}", span.from, span.to),
        Err(fault) => format!(in alloc; "{fault:?}"),
    }
}

fn duration_answer(alloc: Global, text: &str) -> Result<String, AllocError> {
    match read_duration(text) {
        Ok(nanoseconds) => format!(in alloc; "{nanoseconds}"),
        Err(fault) => format!(in alloc; "{fault:?}"),
    }
}

fn moment_answer(alloc: Global, text: &str) -> Result<String, AllocError> {
    let read = read_moment(text);
    if read != plain::read_moment(text) {
        return format!(in alloc; "the plain reading differs");
    }
    let moment = match read {
        Ok(moment) => moment,
        Err(fault) => return format!(in alloc; "{fault:?}"),
    };
    let mut written = Text::new();
    write_moment(alloc, moment, &mut written)?;
    let mut plainly = Text::new();
    plain::write_moment(alloc, moment, &mut plainly)?;
    if written.as_str() != plainly.as_str() {
        return format!(in alloc; "the plain text differs");
    }
    format!(in alloc; "{moment} {} {}", written.as_str(), day_of(moment))
}
