//! The results for header fields and form data.
use crate::spelling_tests::{bytes_of, push_spelled};
use http_said::{Facts, FieldFault, Framing, push_arguments};
use httparse::Status;
use httparse::spans::{EMPTY_HEADER_SPAN, parse_headers};
use std::alloc::{AllocError, Global};
use std::fmt::Write;

pub fn answer(alloc: Global, line: &str) -> Result<String, AllocError> {
    let (name, spelled) = line.split_once(" | ").unwrap_or((line, ""));
    let bytes = bytes_of(alloc, spelled)?;
    let mut answer = format!(in alloc; "{name} | ")?;
    if name.starts_with("form") {
        push_form(alloc, &bytes, &mut answer)?;
    } else {
        push_fields(&bytes, &mut answer)?;
    }
    Ok(answer)
}

fn push_form(alloc: Global, form: &[u8], answer: &mut String) -> Result<(), AllocError> {
    let mut args = Vec::new(alloc);
    push_arguments(alloc, form, &mut args)?;
    for arg in &args {
        answer.push('(')?;
        push_spelled(arg.name.as_str().as_bytes(), answer)?;
        answer.push_str(")=(")?;
        push_spelled(arg.value.as_str().as_bytes(), answer)?;
        answer.push(')')?;
    }
    Ok(())
}

fn push_fields(bytes: &[u8], answer: &mut String) -> Result<(), AllocError> {
    let mut headers = [EMPTY_HEADER_SPAN; 10];
    match parse_headers(bytes, &mut headers) {
        Ok(Status::Complete((_, count))) => {
            let old = Facts::from_spans(bytes, &headers[..count], 0);
            let new = Facts::from_spans(bytes, &headers[..count], 1);
            push_facts(&old, &new, answer)
        }
        _ => answer.push_str("no fields"),
    }
}

/// Appends the results in HTTP/1.0 and in HTTP/1.1.
fn push_facts(old: &Facts, new: &Facts, answer: &mut String) -> Result<(), AllocError> {
    push_framing(new, answer)?;
    if new.form {
        answer.push_str(", a form")?;
    }
    if old.last {
        answer.push_str(", the last of 1.0")?;
    }
    if new.last {
        answer.push_str(", the last of 1.1")?;
    }
    Ok(())
}

fn push_framing(facts: &Facts, answer: &mut String) -> Result<(), AllocError> {
    match facts.framing {
        Ok(Framing::Sized(len)) => write!(answer, "length {len}"),
        Ok(Framing::Chunked) => answer.push_str("chunked"),
        Err(FieldFault::BodyLarge) => answer.push_str("BodyLarge"),
        Err(FieldFault::BadLength) => answer.push_str("BadLength"),
        Err(FieldFault::Coding) => answer.push_str("Coding"),
    }
}
