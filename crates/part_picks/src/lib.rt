//! Ranges of the rows of blocks, and parts made of them.
#![tactic(auto)]

mod copying;
mod ends;
mod filling;
mod joined;
mod pick;
mod taking;

pub use copying::rows_of;
pub use joined::{part_of, picks_of};
pub use pick::Pick;
