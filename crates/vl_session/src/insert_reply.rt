//! Replies to inserts.
ghost use Rattle.std.specs.Prelude.{◌≡◌, ◌++◌, IfOk, OnOk, Some, codes, decimal, flat_map, string_bytes};
ghost use Rattle.json.specs.Print.{escape};
ghost use Rattle.http_reply.specs.Reply.{reply_bytes};
ghost use Rattle.vl_session.specs.Insert.{InsertOutcome, fault_fields, insert_status, large, named_line, refusal_text};
ghost use Rattle.vl_session.specs.Incoming.{insert_outcome_of};
ghost use Rattle.vl_session.specs.Said.{first_member, later_line, later_member, refused_text};

use crate::insert::InsertionFault;
use http_reply::{Delivery, Status, reply};
use ingest_row::LineFault;
use std::alloc::{AllocError, Global};

/// The most refused lines that a reply names.
const NAMED_LIMIT: usize = 16;

/// Writes the reply up to the accepted count. The caller writes the closing quote.
pub(crate) fn push_accepted(text: &mut String, accepted: u64) -> Result<(), AllocError>
    ensures { OnOk result (string_bytes text.new
        ≡ string_bytes text.old ++ first_member (codes "accepted", decimal accepted)) }
{
    write!(text, "{{\"accepted\":\"{accepted}")
}

/// Writes the rest of the reply: which lines were refused.
pub(crate) fn push_refused(text: &mut String, refused: &[LineFault]) -> Result<(), AllocError>
    ensures { OnOk result (string_bytes text.new ≡ string_bytes text.old ++ refused_text refused.now) }
{
    let count = refused.len();
    push_faults(text, refused)?;
    write!(text, "\",\"refused\":\"{count}\"}}\n")
}

/// Appends the names of the first refused lines, if there are any.
fn push_faults(text: &mut String, refused: &[LineFault]) -> Result<(), AllocError>
    ensures { OnOk result (string_bytes text.new
        ≡ string_bytes text.old ++ flat_map later_member (fault_fields refused.now)) }
{
    let [first, others @ ..] = refused else {
        return Ok(());
    };
    text.push_str("\",\"faults\":\"")?;
    push_named(text, first)?;
    push_others(text, &others[..others.len().min(NAMED_LIMIT - 1)])
}

/// Appends the names of lines after others.
fn push_others(text: &mut String, others: &[LineFault]) -> Result<(), AllocError>
    ensures { OnOk result (string_bytes text.new ≡ string_bytes text.old ++ flat_map later_line others.now) }
{
    for fault in others {
        text.push_str(", ")?;
        push_named(text, fault)?;
    }
    Ok(())
}

/// Appends the name of a refused line, its number and why, as it stands in a JSON string.
fn push_named(text: &mut String, fault: &LineFault) -> Result<(), AllocError>
    ensures { OnOk result (string_bytes text.new ≡ string_bytes text.old ++ escape (named_line fault.now)) }
{
    let number = fault.line;
    let kind = fault.kind;
    write!(text, "{number} {kind}")
}

/// Returns the reply where nothing was inserted. There is none where memory ran out.
pub(crate) fn refusal_reply(
    alloc: Global,
    fault: InsertionFault,
    delivery: Delivery,
) -> Result<String, AllocError>
    ensures { IfOk result (λ text. (outcome : InsertOutcome) × (insert_outcome_of fault ≡ Some outcome)
        × (string_bytes text ≡ reply_bytes (insert_status outcome) (refusal_text outcome) delivery)) }
{
    let unavailable = Status::ServiceUnavailable;
    match fault {
        InsertionFault::Large { weight } => {
            let text = large_reply(alloc, weight, delivery)?;
            Ok(text)
        }
        InsertionFault::Full { .. } => reply(alloc, unavailable, "Full 4096\n", delivery),
        InsertionFault::Spent => reply(alloc, unavailable, "Spent\n", delivery),
        InsertionFault::Memory => Err(AllocError),
    }
}

/// Returns the reply where the rows weigh too much.
fn large_reply(alloc: Global, weight: u64, delivery: Delivery) -> Result<String, AllocError>
    ensures { IfOk result (λ text. string_bytes text
        ≡ reply_bytes Status.ContentTooLarge (refusal_text (large weight)) delivery) }
{
    let content = format!(in alloc; "Large {weight}\n")?;
    reply(alloc, Status::ContentTooLarge, content.as_str(), delivery)
}
