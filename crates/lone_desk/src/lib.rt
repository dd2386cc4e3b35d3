//! A desk with one caller.
#![tactic(auto)]

mod desk;
mod kept;

pub use desk::{LoneDesk, read_lines};
pub use log_desk::{KeepFault, Keeper};
pub use vl_session::{
    Answer, AnswerFault, Incoming, Insertion, InsertionFault, QueryRefusal, Search, SearchFault,
    read_query,
};
