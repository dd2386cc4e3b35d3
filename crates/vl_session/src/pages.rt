//! Replies that need no more than numbers of the log.
ghost use Rattle.std.specs.Prelude.{◌≡◌, IfOk, codes, string_bytes};
ghost use Rattle.http_reply.specs.Reply.{reply_bytes};
ghost use Rattle.vl_session.specs.Reply.{status_text};

use http_reply::{Delivery, Kind, Status, reply};
use std::alloc::{AllocError, Global};

/// Returns the reply to `/health`.
pub(crate) fn health_reply(alloc: Global, delivery: Delivery) -> Result<String, AllocError>
    ensures { IfOk result (λ text. string_bytes text ≡ reply_bytes (Status.Served Kind.Text) (codes "OK\n") delivery) }
{
    reply(alloc, Status::Served(Kind::Text), "OK\n", delivery)
}

/// Returns the reply to `/status`, where there are this many batches, and this many of them are settled.
pub(crate) fn status_reply(
    alloc: Global,
    batches: u64,
    settled: u64,
    delivery: Delivery,
) -> Result<String, AllocError>
    ensures { IfOk result (λ text. string_bytes text
        ≡ reply_bytes (Status.Served Kind.Json) (status_text batches settled) delivery) }
{
    let content = format!(in alloc; "{{\"batches\":\"{batches}\",\"settled\":\"{settled}\"}}\n")?;
    let status = Status::Served(Kind::Json);
    reply(alloc, status, content.as_str(), delivery)
}
