//! What requests ask for.
use crate::shown_tests::push_options;
use crate::spelling_tests::{bytes_of, push_spelled};
use http_in::{Reader, Request, RequestFault};
use http_route::{WantFault, Wanted, delivery_to, fault_reply};
use std::alloc::{AllocError, Global};
use vl_io::MemSource;

pub fn answer(alloc: Global, line: &str) -> Result<String, AllocError> {
    let (name, spelled) = line.split_once(" | ").unwrap_or((line, ""));
    let bytes = bytes_of(alloc, spelled)?;
    let mut answer = format!(in alloc; "{name} | ")?;
    let mut source = MemSource::of(alloc, &bytes, &[], &[])?;
    match Reader::new(alloc).next(&mut source) {
        Ok(Some(request)) => push_wanted(alloc, &request, &mut answer)?,
        Ok(None) => answer.push_str("no request")?,
        Err(fault) => push_fault(fault, &mut answer)?,
    }
    Ok(answer)
}

fn push_wanted(alloc: Global, request: &Request, answer: &mut String) -> Result<(), AllocError> {
    match Wanted::of(alloc, request) {
        Ok(Wanted::Insert(options)) => push_options(&options, answer),
        Ok(Wanted::Query(text)) => {
            answer.push_str("query ")?;
            push_spelled(text.as_bytes(), answer)
        }
        Ok(Wanted::Status) => answer.push_str("status"),
        Ok(Wanted::Health) => answer.push_str("health"),
        Err(WantFault::Refused(refusal)) => {
            let reply = refusal.reply(alloc, delivery_to(request, false))?;
            push_spelled(reply.as_bytes(), answer)
        }
        Err(WantFault::Memory) => Err(AllocError),
    }
}

fn push_fault(fault: RequestFault, answer: &mut String) -> Result<(), AllocError> {
    match fault_reply(fault) {
        Some(reply) => push_spelled(reply.as_bytes(), answer),
        None => answer.push_str("no reply"),
    }
}
