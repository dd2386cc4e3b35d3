//! Slow and simple versions of filters and of the pipes `sort`, `uniq`, `top`, `stats` and those that set fields, which
//! follow their definitions. Tests compare `lq_filter`, `lq_tuple`, `lq_order`, `lq_stats` and `lq_pipes` with them; they
//! call none of these crates, nor `row_pipes`. What both sides use is not compared: `vl_row` (field lists, numbers, the
//! order of values), `stream_label` (labels, stream ids, JSON strings), `regex` and `caseless`.
//!
//! - Filters: `filter`; `forms` has each kind of filter, `value`, `pattern` and `selector` the tests of values and
//!   streams, `subject` the row or record under test. `patterns` first checks all regular expressions.
//! - Pipes: `sort_pipe`, `tuple_pipes` (`uniq` and `top`), `stats_pipe` and `make_pipe` (`extract`, `format`, `len` and
//!   `math`); `groups`, `functions`, `values`, `total` and `array` belong to `stats`, `extract` and `math` to those that
//!   set fields. `tuple`, `tuples`, `tuple_records`, `insertion` and `put` serve several pipes.
#![tactic(auto)]

mod array;
mod extract;
mod fault;
mod filter;
mod forms;
mod functions;
mod groups;
mod insertion;
mod make_pipe;
mod math;
mod pattern;
mod patterns;
mod put;
mod selector;
mod sort_pipe;
mod stats_pipe;
mod subject;
mod total;
mod tuple;
mod tuple_pipes;
mod tuple_records;
mod tuples;
mod value;
mod values;

pub use fault::PlainFault;
pub use filter::{holds, record_holds};
pub use make_pipe::make;
pub use sort_pipe::sort;
pub use stats_pipe::grouped;
pub use tuple_pipes::{top, uniq};
