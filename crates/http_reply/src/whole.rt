//! Whole responses.
ghost use Rattle.std.specs.Prelude.{◌≡◌, ◌++◌, ◌<◌, ℕ, IfOk, OnErr, OnOk, length, string_bytes, take};
ghost use Rattle.http_reply.specs.Reply.{no_memory_bytes, reply_bytes};
ghost use Rattle.vl_io.specs.Bytes.{Appends};
ghost use Rattle.vl_io.specs.Faults.{HasCause};

use crate::head::reply_head;
use crate::status::{Delivery, Status};
use std::alloc::{AllocError, Global};
use vl_io::{Failed, Sink, put_all};

/// Returns a whole response.
pub fn reply(
    alloc: Global,
    status: Status,
    content: &str,
    delivery: Delivery,
) -> Result<String, AllocError>
    ensures { IfOk result (λ text. string_bytes text ≡ reply_bytes status content.now delivery) }
{
    let mut text = reply_head(alloc, status, content.len(), delivery)?;
    if !delivery.bare {
        text.push_str(content)?;
    }
    Ok(text)
}

/// Returns the response when memory runs out. It allocates nothing.
pub fn no_memory(delivery: Delivery) -> &'static str
    ensures { result.now ≡ no_memory_bytes delivery }
{
    match (delivery.bare, delivery.closes) {
        (false, false) => {
            "HTTP/1.1 507 Insufficient Storage\r\n\
             Content-Type: text/plain; charset=utf-8\r\n\
             Content-Length: 10\r\n\
             \r\n\
             no memory\n"
        }
        (false, true) => {
            "HTTP/1.1 507 Insufficient Storage\r\n\
             Content-Type: text/plain; charset=utf-8\r\n\
             Content-Length: 10\r\n\
             Connection: close\r\n\
             \r\n\
             no memory\n"
        }
        (true, false) => {
            "HTTP/1.1 507 Insufficient Storage\r\nContent-Type: text/plain; charset=utf-8\r\n\r\n"
        }
        (true, true) => {
            "HTTP/1.1 507 Insufficient Storage\r\n\
             Content-Type: text/plain; charset=utf-8\r\n\
             Connection: close\r\n\
             \r\n"
        }
    }
}

/// Writes a head and then the content. If the sink fails, a proper prefix of both was written.
pub fn put_parts<K: Sink>(sink: &mut K, head: &str, content: &str) -> Result<(), Failed>
    ensures ok { OnOk result (Appends (K.written sink.old) (K.written sink.new) (head.now ++ content.now)) }
    ensures err { OnErr result ((n : ℕ) × (n < length (head.now ++ content.now))
        × Appends (K.written sink.old) (K.written sink.new) (take n (head.now ++ content.now))) }
    ensures cause { HasCause (K.faults sink.old) (K.faults sink.new) result }
{
    put_all(sink, head.as_bytes())?;
    put_all(sink, content.as_bytes())
}
