//! The arguments of a query.
ghost use Rattle.std.specs.Prelude.{◌≡◌, is_some, IfOk, IfErr, Ok, Err};
ghost use Rattle.std.specs.List.{find};
ghost use Rattle.ingest_row.specs.Asked.{argument};
ghost use Rattle.http_route.specs.Refusal.{argument_name};
ghost use Rattle.http_route.specs.Route.{query_asked};

use crate::refusal::{Argument, Refusal};
use ingest_row::argument;
use vl_row::Field;

/// Arguments of VictoriaLogs that are not served: a query says with its pipes what they say.
const NOT_SERVED: [Argument; 4] = [
    Argument::Limit,
    Argument::Start,
    Argument::End,
    Argument::Offset,
];

/// Returns the text of the query.
pub(crate) fn query_text(args: &[Field]) -> Result<&str, Refusal>
    ensures ok { IfOk result (λ text. query_asked args.now ≡ Ok text.now) }
    ensures err { IfErr result (λ refusal. query_asked args.now ≡ Err refusal) }
{
    match (argument(args, "query"), first_there(args, &NOT_SERVED)) {
        (None, _) => Err(Refusal::BadArgument(Argument::Query)),
        (Some(_), Some(argument)) => Err(Refusal::BadArgument(argument)),
        (Some(text), None) => Ok(text),
    }
}

/// Returns the first of these that is among the arguments.
fn first_there(args: &[Field], wanted: &[Argument]) -> Option<Argument>
    ensures { result ≡ find (λ name. is_some (argument args.now (argument_name name))) wanted.now }
{
    for name in wanted {
        if argument(args, name.name()).is_some() {
            return Some(*name);
        }
    }
    None
}
