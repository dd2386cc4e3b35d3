//! Sessions of HTTP and of syslog over a log: replies, inserts, and the outcome of one connection.
#![tactic(auto)]

mod access;
mod answer;
mod desk_log;
mod insert;
mod insert_reply;
mod law;
mod log;
mod pages;
mod prepared_reply;
mod query_reply;
mod report;
mod request;
mod send;
mod serve;
mod session;
mod syslog_inflow;
mod syslog_intake;
mod syslog_report;
mod syslog_stream;
mod turn;

pub use access::Access;
pub use answer::{Answer, AnswerFault, answer_query};
pub use insert::{Incoming, Insertion, InsertionFault, insert_lines};
pub use law::{alone_law, insert_law, select_law, session_law, syslog_law};
pub use query_run::{QueryFault, QueryRefusal, Search, SearchFault, Steps, read_query};
pub use report::{Done, End, Report};
pub use serve::serve_session;
pub use syslog_report::{SyslogEnd, SyslogReport};
pub use syslog_stream::syslog_session;
