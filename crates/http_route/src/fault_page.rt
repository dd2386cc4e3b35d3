//! Replies to bytes that are not a request.
ghost use Rattle.std.specs.Prelude.{◌≡◌, option_map};
ghost use Rattle.http_route.specs.Refusal.{fault_page};

use http_in::RequestFault;

/// Returns the reply to a reading fault, after which the connection ends. There is none where the input ended or
/// failed, or memory ran out. It takes no memory itself.
pub fn fault_reply(fault: RequestFault) -> Option<&'static str>
    ensures { option_map (λ text. text.now) result ≡ fault_page fault }
{
    match fault {
        RequestFault::BadHead { .. } => Some(
            "HTTP/1.1 400 Bad Request\r\n\
             Content-Type: text/plain; charset=utf-8\r\n\
             Content-Length: 8\r\n\
             Connection: close\r\n\
             \r\n\
             BadHead\n",
        ),
        RequestFault::HeadLarge => Some(
            "HTTP/1.1 400 Bad Request\r\n\
             Content-Type: text/plain; charset=utf-8\r\n\
             Content-Length: 10\r\n\
             Connection: close\r\n\
             \r\n\
             HeadLarge\n",
        ),
        RequestFault::BodyLarge => Some(
            "HTTP/1.1 413 Content Too Large\r\n\
             Content-Type: text/plain; charset=utf-8\r\n\
             Content-Length: 10\r\n\
             Connection: close\r\n\
             \r\n\
             BodyLarge\n",
        ),
        RequestFault::BadLength => Some(
            "HTTP/1.1 400 Bad Request\r\n\
             Content-Type: text/plain; charset=utf-8\r\n\
             Content-Length: 10\r\n\
             Connection: close\r\n\
             \r\n\
             BadLength\n",
        ),
        RequestFault::BadChunk { .. } => Some(
            "HTTP/1.1 400 Bad Request\r\n\
             Content-Type: text/plain; charset=utf-8\r\n\
             Content-Length: 9\r\n\
             Connection: close\r\n\
             \r\n\
             BadChunk\n",
        ),
        RequestFault::Coding => Some(
            "HTTP/1.1 415 Unsupported Media Type\r\n\
             Content-Type: text/plain; charset=utf-8\r\n\
             Content-Length: 7\r\n\
             Connection: close\r\n\
             \r\n\
             Coding\n",
        ),
        RequestFault::SourceFault | RequestFault::Cut { .. } | RequestFault::Memory => None,
    }
}
