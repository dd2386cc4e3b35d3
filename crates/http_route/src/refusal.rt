//! Why a request is refused, and its reply.
ghost use Rattle.std.specs.Prelude.{◌≡◌, IfOk, string_bytes};
ghost use Rattle.http_reply.specs.Reply.{reply_bytes};
ghost use Rattle.http_route.specs.Refusal.{argument_name, refusal_bytes, refusal_status, refusal_text};

use http_reply::{Delivery, Methods, Status, reply};
use std::alloc::{AllocError, Global};

/// Why a request is refused before the log is asked.
#[derive(Clone, Copy, Debug, PartialEq, Eq, Drop)]
pub enum Refusal {
    /// No such path.
    NoPath,
    /// The path has these methods, and not the one that came.
    NoMethod(Methods),
    /// The argument is missing, or may not be there, or is out of form.
    BadArgument(Argument),
}

/// The arguments for which a request may be refused.
#[derive(Clone, Copy, Debug, PartialEq, Eq, Drop)]
pub enum Argument {
    Query,
    Limit,
    Start,
    End,
    Offset,
    ExtraFields,
}

impl Argument {
    pub(crate) fn name(self) -> &'static str
        ensures { result.now ≡ argument_name self }
    {
        match self {
            Argument::Query => "query",
            Argument::Limit => "limit",
            Argument::Start => "start",
            Argument::End => "end",
            Argument::Offset => "offset",
            Argument::ExtraFields => "extra_fields",
        }
    }
}

impl Refusal {
    /// Returns the reply.
    pub fn reply(self, alloc: Global, delivery: Delivery) -> Result<String, AllocError>
        ensures { IfOk result (λ text. string_bytes text ≡ refusal_bytes self delivery) }
    {
        match self {
            Refusal::NoPath => reply(alloc, Status::NotFound, "no such path\n", delivery),
            Refusal::NoMethod(methods) => reply(
                alloc,
                Status::MethodNotAllowed(methods),
                "no such method\n",
                delivery,
            ),
            Refusal::BadArgument(argument) => argument_reply(alloc, argument, delivery),
        }
    }
}

/// Returns the reply that names an argument.
fn argument_reply(
    alloc: Global,
    argument: Argument,
    delivery: Delivery,
) -> Result<String, AllocError>
    ensures { IfOk result (λ text. string_bytes text
        ≡ reply_bytes Status.BadRequest (refusal_text (Refusal.BadArgument argument)) delivery) }
{
    let name = argument.name();
    let content = format!(in alloc; "BadArgument {name}\n")?;
    reply(alloc, Status::BadRequest, content.as_str(), delivery)
}
