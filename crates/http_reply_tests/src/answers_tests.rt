//! Responses, whole and in parts.
use crate::cases_tests::{content_of, delivery_of, shown, status_of};
use http_reply::{Delivery, Status, no_memory, put_parts, reply, reply_head};
use std::alloc::{AllocError, Global};
use std::str;
use vl_io::MemSink;

pub fn answer(alloc: Global, line: &str) -> Result<String, AllocError> {
    let (name, case) = line.split_once(" | ").unwrap_or((line, ""));
    let (status, case) = case.split_once(" | ").unwrap_or((case, ""));
    let (delivery, content) = case.split_once(" | ").unwrap_or((case, ""));
    let delivery = delivery_of(delivery);
    let content = content_of(alloc, content)?;
    let text = match status {
        "no memory" => String::from_str(alloc, no_memory(delivery))?,
        words => whole_reply(alloc, status_of(words), content.as_str(), delivery)?,
    };
    let text = shown(alloc, text.as_str())?;
    format!(in alloc; "{name} | {text}")
}

/// Returns the response, and what was written of it where that differs.
fn whole_reply(
    alloc: Global,
    status: Status,
    content: &str,
    delivery: Delivery,
) -> Result<String, AllocError> {
    let mut whole = reply(alloc, status, content, delivery)?;
    let head = reply_head(alloc, status, content.len(), delivery)?;
    let body = if delivery.bare { "" } else { content };
    let mut sink = MemSink::of(alloc, &[])?;
    if put_parts(&mut sink, head.as_str(), body).is_err() || sink.bytes() != whole.as_bytes() {
        push_written(" in parts: ", &sink, &mut whole)?;
    }
    let mut sink = MemSink::of(alloc, &[1])?;
    let sent = put_parts(&mut sink, head.as_str(), body);
    if sent.is_err() == body.is_empty() || sink.bytes() != head.as_bytes() {
        push_written(" cut: ", &sink, &mut whole)?;
    }
    Ok(whole)
}

fn push_written(what: &str, sink: &MemSink, text: &mut String) -> Result<(), AllocError> {
    text.push_str(what)?;
    text.push_str(str::from_utf8(sink.bytes()).unwrap_or("no text"))
}
