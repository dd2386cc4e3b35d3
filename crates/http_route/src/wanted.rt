//! What a request asks for.
ghost use Rattle.std.specs.Prelude.{◌≡◌, IfOk, IfErr, Ok, Err};
ghost use Rattle.http_in.specs.Reading.{asked_by};
ghost use Rattle.http_route.specs.Route.{delivery_of, insert, insert_of, wanted_by, wanted_of, wanted_on};

use crate::arguments::query_text;
use crate::path::Route;
use crate::refusal::{Argument, Refusal};
use http_in::Request;
use http_reply::Delivery;
use ingest_row::{OptionFault, Options};
use std::alloc::Global;
use vl_row::Field;

/// What a request asks for.
#[derive(Drop)]
pub enum Wanted<'a> {
    /// The lines of the body are to be inserted.
    Insert(Options),
    /// This query is to be answered.
    Query(&'a str),
    /// How much there is.
    Status,
    /// A health check.
    Health,
}

/// Why nothing is asked for.
#[derive(Clone, Copy, Debug, PartialEq, Eq, Drop)]
pub enum WantFault {
    Refused(Refusal),
    /// Memory ran out.
    Memory,
}

impl<'a> Wanted<'a> {
    /// Returns what a request asks for. Its path, its method and its arguments are looked at in this order.
    pub fn of(alloc: Global, request: &'a Request) -> Result<Wanted<'a>, WantFault>
        ensures ok { IfOk result (λ wanted. wanted_of (asked_by request.now) ≡ Ok (wanted_by wanted)) }
        ensures err { IfErr result (λ fault. (refusal : _) → fault ≡ WantFault.Refused refusal
            → wanted_of (asked_by request.now) ≡ Err refusal) }
    {
        match Route::find(request.path.as_str(), request.method.as_str()) {
            Ok(route) => on_route(alloc, route, request.args.as_slice()),
            Err(refusal) => Err(WantFault::Refused(refusal)),
        }
    }
}

/// Returns what these arguments ask for.
fn on_route(alloc: Global, route: Route, args: &[Field]) -> Result<Wanted<'_>, WantFault>
    ensures ok { IfOk result (λ wanted. wanted_on route args.now ≡ Ok (wanted_by wanted)) }
    ensures err { IfErr result (λ fault. (refusal : _) → fault ≡ WantFault.Refused refusal
        → wanted_on route args.now ≡ Err refusal) }
{
    match route {
        Route::Insert => match options(alloc, args) {
            Ok(options) => Ok(Wanted::Insert(options)),
            Err(fault) => Err(fault),
        },
        Route::Query => match query_text(args) {
            Ok(text) => Ok(Wanted::Query(text)),
            Err(refusal) => Err(WantFault::Refused(refusal)),
        },
        Route::Status => Ok(Wanted::Status),
        Route::Health => Ok(Wanted::Health),
    }
}

/// Returns what the arguments of an insert ask for beside the lines.
fn options(alloc: Global, args: &[Field]) -> Result<Options, WantFault>
    ensures ok { IfOk result (λ options. insert_of args.now ≡ Ok (insert options)) }
    ensures err { IfErr result (λ fault. (refusal : _) → fault ≡ WantFault.Refused refusal
        → insert_of args.now ≡ Err refusal) }
{
    match Options::read(alloc, args) {
        Ok(options) => Ok(options),
        Err(OptionFault::BadExtra) => Err(WantFault::Refused(Refusal::BadArgument(
            Argument::ExtraFields,
        ))),
        Err(OptionFault::Memory) => Err(WantFault::Memory),
    }
}

/// How the reply to a request is delivered, where the connection ends after it or does not.
pub fn delivery_to(request: &Request, closes: bool) -> Delivery
    ensures { result ≡ delivery_of (asked_by request.now) closes }
{
    Delivery {
        bare: request.method.as_str() == "HEAD",
        closes,
    }
}
