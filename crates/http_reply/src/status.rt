//! Response statuses, media types and allowed methods.
ghost use Rattle.std.specs.Prelude.{◌≡◌};
ghost use Rattle.http_reply.specs.Reply.{kind_of, media_type, methods_text, status_line};

/// The status of a response (RFC 9110, section 15).
#[derive(Clone, Copy, Debug, PartialEq, Eq, Drop)]
pub enum Status {
    /// 200, with content of this kind
    Served(Kind),
    /// 400
    BadRequest,
    /// 404
    NotFound,
    /// 405; the path allows these methods
    MethodNotAllowed(Methods),
    /// 413
    ContentTooLarge,
    /// 415
    UnsupportedMediaType,
    /// 422
    UnprocessableContent,
    /// 503
    ServiceUnavailable,
    /// 507 (RFC 4918, section 11.5)
    InsufficientStorage,
}

/// The media type of the content (RFC 9110, section 8.3).
#[derive(Clone, Copy, Debug, PartialEq, Eq, Drop)]
pub enum Kind {
    Text,
    Json,
    /// One JSON text per line.
    JsonLines,
}

/// The methods that a path allows (RFC 9110, section 9).
#[derive(Clone, Copy, Debug, PartialEq, Eq, Drop)]
pub enum Methods {
    Get,
    Post,
    GetAndPost,
}

/// How a response is delivered over its connection.
#[derive(Clone, Copy, Debug, PartialEq, Eq, Drop)]
pub struct Delivery {
    /// Whether the content and its length are left out, as in a response to HEAD.
    pub bare: bool,
    /// Whether the connection closes after the response.
    pub closes: bool,
}

impl Status {
    /// Returns the code and the reason phrase of the status line.
    pub(crate) fn text(self) -> &'static str
        ensures { result.now ≡ status_line self }
    {
        match self {
            Status::Served(_) => "200 OK",
            Status::BadRequest => "400 Bad Request",
            Status::NotFound => "404 Not Found",
            Status::MethodNotAllowed(_) => "405 Method Not Allowed",
            Status::ContentTooLarge => "413 Content Too Large",
            Status::UnsupportedMediaType => "415 Unsupported Media Type",
            Status::UnprocessableContent => "422 Unprocessable Content",
            Status::ServiceUnavailable => "503 Service Unavailable",
            Status::InsufficientStorage => "507 Insufficient Storage",
        }
    }

    /// Returns the kind of the content.
    pub(crate) fn kind(self) -> Kind
        ensures { result ≡ kind_of self }
    {
        match self {
            Status::Served(kind) => kind,
            _ => Kind::Text,
        }
    }
}

impl Kind {
    /// Returns the value of the Content-Type field.
    pub(crate) fn text(self) -> &'static str
        ensures { result.now ≡ media_type self }
    {
        match self {
            Kind::Text => "text/plain; charset=utf-8",
            Kind::Json => "application/json",
            Kind::JsonLines => "application/stream+json",
        }
    }
}

impl Methods {
    /// Returns the value of the Allow field.
    pub(crate) fn text(self) -> &'static str
        ensures { result.now ≡ methods_text self }
    {
        match self {
            Methods::Get => "GET",
            Methods::Post => "POST",
            Methods::GetAndPost => "GET, POST",
        }
    }
}
