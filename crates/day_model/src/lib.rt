//! Which day a row belongs to. There is no code here: the definitions stand in `specs/`, and the contracts of the
//! crates that keep parts by day cite them.
#![tactic(auto)]
