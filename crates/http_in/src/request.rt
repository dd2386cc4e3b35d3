//! A request.

use vl_row::{Field, Items, Text};

/// A whole request.
#[derive(Drop)]
pub struct Request {
    pub method: Text,
    /// The target up to its first question mark.
    pub path: Text,
    /// The arguments after that question mark, and then those of a form that was posted to a path that selects.
    pub args: Items<Field>,
    pub body: Items<u8>,
    /// Whether it asks that the connection ends.
    pub last: bool,
}
