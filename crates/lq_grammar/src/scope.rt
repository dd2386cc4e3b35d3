// What filters are asked of.

/// What a filter is asked of.
#[derive(Clone, Copy, PartialEq, Eq)]
pub enum Scope {
    /// Rows, of which a filter may ask their streams and times.
    Rows,
    /// Records inside pipes, of which it may not.
    Records,
}
