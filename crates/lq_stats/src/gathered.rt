//! What is gathered of records for a plan.
use crate::groups::Groups;
use crate::scratch::Scratch;

/// What a plan has kept of the records so far: for each group and function a state that one more record changes.
#[derive(Drop)]
pub struct Gathered {
    pub(crate) groups: Groups,
    pub(crate) scratch: Scratch,
    pub(crate) rows: u64,
}
