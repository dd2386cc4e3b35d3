//! What is asked of a look.
use lq_ast::Query;
use lq_filter::Prepared;

/// A query with its filter, which was prepared from it, and the moment at which it is asked, in nanoseconds since 1970.
#[derive(Clone, Copy, Drop)]
pub(crate) struct Asked<'q> {
    pub(crate) query: &'q Query,
    pub(crate) filter: &'q Prepared,
    pub(crate) moment: i64,
}
