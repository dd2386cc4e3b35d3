//! Replies to inserts that are made before the number of their batch is known.
ghost use Rattle.std.specs.Prelude.{◌≡◌, ◌⊎◌, ◌+◌, ◌≤◌, ◌<◌, ◌^◌, ◌++◌, ℕ, IfOk, decimal, false, is_some, length, true};
ghost use Rattle.std.specs.Prelude.{string_bytes, string_capacity, string_len};
ghost use Rattle.log_model.specs.Print.{line_text};
ghost use Rattle.http_reply.specs.Reply.{head_bytes, reply_bytes};
ghost use Rattle.vl_session.specs.Incoming.{fields_said};

use crate::insert::Incoming;
use crate::insert_reply::{push_accepted, push_refused};
use http_reply::{Delivery, Kind, Status, head_around_length, reply};
use itoa::Buffer;
use std::alloc::{AllocError, Global};

/// The most digits of a number or of a length.
const DIGITS: usize = 20;

/// A reply to lines, but for the number of their batch. To complete it takes no memory.
#[derive(Drop)]
pub(crate) enum PreparedReply {
    /// A reply without a number, which is whole.
    Whole(String),
    /// A reply that says which batch the rows are.
    Numbered(NumberedReply),
}

/// A reply around the number of a batch, and around the length of its content, which depends on that number's digits.
#[derive(Drop)]
pub(crate) struct NumberedReply {
    // The head up to the length. What follows has room after it.
    head_start: String,
    // The head after the length.
    head_end: String,
    // The content up to the number.
    content_start: String,
    // The content after the number.
    content_end: String,
    ghost room: { string_len head_start + (20 + string_len head_end)
        + (string_len content_start + 20 + string_len content_end) ≤ string_capacity head_start },
}

impl PreparedReply {
    ghost use Rattle.vl_session.specs.Prepared.{IsPreparedFor, text_with};

    /// Prepares the reply to lines that were read.
    pub(crate) fn of(
        alloc: Global,
        incoming: &Incoming,
        delivery: Delivery,
    ) -> Result<PreparedReply, AllocError>
        ensures { IfOk result (λ prepared. IsPreparedFor prepared incoming.now delivery) }
    {
        if delivery.bare || incoming.batch.is_none() {
            let text = numberless_reply(alloc, incoming, delivery)?;
            Ok(PreparedReply::Whole(text))
        } else {
            let reply = NumberedReply::of(alloc, incoming, delivery)?;
            Ok(PreparedReply::Numbered(reply))
        }
    }

    /// Returns the reply, where the rows are the batch with this number, if there are any.
    pub(crate) fn with_number(self, number: u64) -> String
        ensures { string_bytes result ≡ text_with self number }
    {
        match self {
            PreparedReply::Whole(text) => text,
            PreparedReply::Numbered(reply) => reply.with_number(number),
        }
    }
}

impl NumberedReply {
    ghost use Rattle.vl_session.specs.Prepared.{content_with, numbered_text};

    /// Prepares the reply to lines whose rows are a batch.
    fn of(
        alloc: Global,
        incoming: &Incoming,
        delivery: Delivery,
    ) -> Result<NumberedReply, AllocError>
        requires has_length { delivery.bare ≡ false }
        requires has_batch { is_some incoming.now.batch ≡ true }
        ensures head { IfOk result (λ made. (length : ℕ)
            → string_bytes made.head_start ++ (decimal length ++ string_bytes made.head_end)
            ≡ head_bytes (Status.Served Kind.Json) length delivery) }
        ensures content { IfOk result (λ made. (number : ℕ) → number < 2 ^ 64
            → content_with made number ≡ line_text (fields_said incoming.now number)) }
    {
        let status = Status::Served(Kind::Json);
        let (mut head_start, head_end) = head_around_length(alloc, status, delivery)?;
        let mut content_start = String::new(alloc);
        push_accepted(&mut content_start, incoming.accepted)?;
        content_start.push_str("\",\"batch\":\"")?;
        let mut content_end = String::new(alloc);
        push_refused(&mut content_end, incoming.refused.as_slice())?;
        let head_room = head_end.len().saturating_add(DIGITS);
        let fixed_room = content_start.len().saturating_add(content_end.len());
        let content_room = fixed_room.saturating_add(DIGITS);
        head_start.reserve(head_room.saturating_add(content_room))?;
        Ok(NumberedReply {
            head_start,
            head_end,
            content_start,
            content_end,
        })
    }

    /// Returns the reply with this number.
    fn with_number(self, number: u64) -> String
        ensures { string_bytes result ≡ numbered_text self number }
    {
        let NumberedReply {
            head_start,
            head_end,
            content_start,
            content_end,
        } = self;
        let mut number_buffer = Buffer::new();
        let mut length_buffer = Buffer::new();
        let digits = number_buffer.format(number);
        let length = content_start.len() + digits.len() + content_end.len();
        let mut text = head_start;
        push_in_room(&mut text, length_buffer.format(length));
        push_in_room(&mut text, head_end.as_str());
        push_in_room(&mut text, content_start.as_str());
        push_in_room(&mut text, digits);
        push_in_room(&mut text, content_end.as_str());
        text
    }
}

/// Returns the reply to lines that names no batch, since there is none or there is no content.
fn numberless_reply(
    alloc: Global,
    incoming: &Incoming,
    delivery: Delivery,
) -> Result<String, AllocError>
    requires numberless { (delivery.bare ≡ true) ⊎ (is_some incoming.now.batch ≡ false) }
    ensures { IfOk result (λ text. (number : ℕ) → string_bytes text
        ≡ reply_bytes (Status.Served Kind.Json) (line_text (fields_said incoming.now number)) delivery) }
{
    let mut content = String::new(alloc);
    push_accepted(&mut content, incoming.accepted)?;
    push_refused(&mut content, incoming.refused.as_slice())?;
    let status = Status::Served(Kind::Json);
    let text = reply(alloc, status, content.as_str(), delivery)?;
    Ok(text)
}

/// Appends a text for which there is room.
fn push_in_room(text: &mut String, added: &str)
    requires room { string_len text.old + length added.now ≤ string_capacity text.old }
    ensures bytes { string_bytes text.new ≡ string_bytes text.old ++ added.now }
    ensures len { string_len text.new ≡ string_len text.old + length added.now }
    ensures capacity { string_capacity text.old ≤ string_capacity text.new }
{
    match text.push_str(added) {
        Ok(()) => (),
        Err(AllocError) => unreachable!(),
    }
}
