//! What a session reports.

use http_in::RequestFault;
use vl_row::Items;

/// What a session did.
#[derive(Drop)]
pub struct Report {
    /// The requests that were served, in order.
    pub turns: Items<Done>,
    pub end: End,
}

/// One request that was served.
#[derive(Clone, Copy, Debug, PartialEq, Eq, Drop)]
pub struct Done {
    /// The moment at which the request was whole.
    pub now: i64,
    /// How many batches had been seen once it was served.
    pub front: u64,
    /// How many of them, as had been seen then, were settled.
    pub settled: u64,
}

/// Why a session ended.
#[derive(Clone, Copy, Debug, PartialEq, Eq, Drop)]
pub enum End {
    /// The input ended between two requests.
    Closed,
    /// The last request asked to close, and its reply was written.
    AskedClose,
    /// 1,000 requests were served, and none asked to close.
    Limit,
    /// The source failed.
    SourceFault,
    /// The sink failed.
    SinkFault,
    /// What came next is not a request.
    BadInput(RequestFault),
    /// Memory ran out.
    Memory,
}
