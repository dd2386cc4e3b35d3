//! Replies to queries.
ghost use Rattle.std.specs.Prelude.{◌≡◌, IfOk, Some, string_bytes};
ghost use Rattle.http_reply.specs.Reply.{reply_bytes};
ghost use Rattle.vl_session.specs.Answer.{query_outcome_of};
ghost use Rattle.vl_session.specs.Query.{QueryOutcome, overflows, query_content, query_status};
ghost use Rattle.vl_session.specs.Query.{unreadable, unspelled};
ghost use Rattle.vl_session.specs.Sent.{bytes_of};

use crate::answer::AnswerFault;
use crate::log::Reply;
use http_reply::{Delivery, Kind, Status, reply, reply_head};
use query_run::QueryFault;
use std::alloc::{AllocError, Global};
use vl_row::Text;

/// Returns the reply with these lines, which are not copied.
pub(crate) fn lines_reply(
    alloc: Global,
    lines: Text,
    delivery: Delivery,
) -> Result<Reply, AllocError>
    ensures { IfOk result (λ reply. bytes_of reply ≡ reply_bytes (Status.Served Kind.JsonLines) lines delivery) }
{
    let length = lines.as_str().len();
    let head = reply_head(alloc, Status::Served(Kind::JsonLines), length, delivery)?;
    if delivery.bare {
        return Ok(Reply::Whole(head));
    }
    Ok(Reply::Parts {
        head,
        content: lines,
    })
}

/// Returns the reply where there is no answer. There is none where memory ran out.
pub(crate) fn unanswered_reply(
    alloc: Global,
    fault: AnswerFault,
    delivery: Delivery,
) -> Result<String, AllocError>
    ensures { IfOk result (λ text. (outcome : QueryOutcome) × (query_outcome_of fault ≡ Some outcome)
        × (string_bytes text ≡ reply_bytes (query_status outcome) (query_content outcome) delivery)) }
{
    match fault {
        AnswerFault::Query(fault) => {
            let text = unspelled_reply(alloc, fault, delivery)?;
            Ok(text)
        }
        AnswerFault::RegexRefused { nth } => {
            let text = unreadable_reply(alloc, nth, delivery)?;
            Ok(text)
        }
        AnswerFault::ManyRows => {
            let text = reply(alloc, Status::UnprocessableContent, "ManyRows\n", delivery)?;
            Ok(text)
        }
        AnswerFault::Overflow { name } => {
            let text = overflow_reply(alloc, name.as_str(), delivery)?;
            Ok(text)
        }
        AnswerFault::Memory => Err(AllocError),
    }
}

/// Returns the reply to a text that spells no query.
fn unspelled_reply(
    alloc: Global,
    fault: QueryFault,
    delivery: Delivery,
) -> Result<String, AllocError>
    ensures { IfOk result (λ text. string_bytes text
        ≡ reply_bytes Status.BadRequest (query_content (unspelled fault)) delivery) }
{
    let content = format!(in alloc; "{fault}\n")?;
    reply(alloc, Status::BadRequest, content.as_str(), delivery)
}

/// Returns the reply where the regular expression with this number is the first that cannot be read.
fn unreadable_reply(alloc: Global, nth: u32, delivery: Delivery) -> Result<String, AllocError>
    ensures { IfOk result (λ text. string_bytes text
        ≡ reply_bytes Status.BadRequest (query_content (unreadable nth)) delivery) }
{
    let content = format!(in alloc; "RegexRefused number {nth}\n")?;
    reply(alloc, Status::BadRequest, content.as_str(), delivery)
}

/// Returns the reply where the total of the function with this name is not a 64-bit integer.
fn overflow_reply(alloc: Global, name: &str, delivery: Delivery) -> Result<String, AllocError>
    ensures { IfOk result (λ text. string_bytes text
        ≡ reply_bytes Status.UnprocessableContent (query_content (overflows name.now)) delivery) }
{
    let content = format!(in alloc; "Overflow in {name}\n")?;
    let status = Status::UnprocessableContent;
    reply(alloc, status, content.as_str(), delivery)
}
