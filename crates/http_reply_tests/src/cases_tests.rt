//! Parses cases.
use http_reply::{Delivery, Kind, Methods, Status};
use std::alloc::{AllocError, Global};

pub fn status_of(words: &str) -> Status {
    match words {
        "200 text" => Status::Served(Kind::Text),
        "200 json" => Status::Served(Kind::Json),
        "200 lines" => Status::Served(Kind::JsonLines),
        "400" => Status::BadRequest,
        "404" => Status::NotFound,
        "405 GET" => Status::MethodNotAllowed(Methods::Get),
        "405 POST" => Status::MethodNotAllowed(Methods::Post),
        "405 GET POST" => Status::MethodNotAllowed(Methods::GetAndPost),
        "413" => Status::ContentTooLarge,
        "415" => Status::UnsupportedMediaType,
        "422" => Status::UnprocessableContent,
        "503" => Status::ServiceUnavailable,
        _ => Status::InsufficientStorage,
    }
}

pub fn delivery_of(words: &str) -> Delivery {
    Delivery {
        bare: words == "bare" || words == "bare closes",
        closes: words == "closes" || words == "bare closes",
    }
}

/// Returns the text with each `\n` replaced by a line feed.
pub fn content_of(alloc: Global, words: &str) -> Result<String, AllocError> {
    words.replace(alloc, "\\n", "\n")
}

/// Returns the text with its line ends escaped.
pub fn shown(alloc: Global, text: &str) -> Result<String, AllocError> {
    text.replace(alloc, "\r", "\\r")?
        .as_str()
        .replace(alloc, "\n", "\\n")
}
