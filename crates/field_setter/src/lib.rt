//! Sets fields that come in any order.
#![tactic(auto)]

mod setter;

pub use setter::FieldSetter;
