//! How far a body is read.

/// What comes next of a body (RFC 9112, sections 6.2 and 7.1).
#[derive(Clone, Copy, Debug, PartialEq, Eq, Drop)]
pub enum Stage {
    /// This many bytes of a body whose length was declared.
    Rest(usize),
    /// A chunk line.
    Line,
    /// This many bytes of a chunk's data.
    Data(usize),
    /// The line end after a chunk's data.
    End,
    /// The trailer section.
    Trailer,
    /// Nothing: the body is whole.
    Done,
}
