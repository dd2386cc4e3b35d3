//! Bloom filters over the words of a column. A filter says of a word that it is not there, or that it may be.
#![tactic(auto)]

mod bits;
mod filter;
mod hash;
mod held;
mod modulus;

pub use filter::{Bloom, BloomFault};
pub use hash::hash_of;
