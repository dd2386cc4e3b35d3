//! The paths, and the methods of each.
ghost use Rattle.std.specs.Prelude.{◌≡◌};
ghost use Rattle.http_route.specs.Route.{has_method, methods_of, route_at, route_of};

use crate::refusal::Refusal;
use http_reply::Methods;

/// What there is.
#[derive(Clone, Copy, Debug, PartialEq, Eq, Drop)]
pub(crate) enum Route {
    /// `/insert/jsonline`
    Insert,
    /// `/select/logsql/query`
    Query,
    /// `/status`
    Status,
    /// `/health`
    Health,
}

impl Route {
    /// Returns the route of a path, by a method.
    pub(crate) fn find(path: &str, method: &str) -> Result<Route, Refusal>
        ensures { result ≡ route_of path.now method.now }
    {
        match Route::at(path) {
            Some(route) if has_method(route.methods(), method) => Ok(route),
            Some(route) => Err(Refusal::NoMethod(route.methods())),
            None => Err(Refusal::NoPath),
        }
    }

    /// Returns the route of a path.
    fn at(path: &str) -> Option<Route>
        ensures { result ≡ route_at path.now }
    {
        match path {
            "/insert/jsonline" => Some(Route::Insert),
            "/select/logsql/query" => Some(Route::Query),
            "/status" => Some(Route::Status),
            "/health" => Some(Route::Health),
            _ => None,
        }
    }

    fn methods(self) -> Methods
        ensures { result ≡ methods_of self }
    {
        match self {
            Route::Insert => Methods::Post,
            Route::Query => Methods::GetAndPost,
            Route::Status | Route::Health => Methods::Get,
        }
    }
}

/// Returns whether this is one of the methods.
fn has_method(methods: Methods, method: &str) -> bool
    ensures { result ≡ has_method methods method.now }
{
    match methods {
        Methods::Get => method == "GET",
        Methods::Post => method == "POST",
        Methods::GetAndPost => method == "GET" || method == "POST",
    }
}
