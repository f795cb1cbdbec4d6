// The lines of a listing, their bytes, and where they go.
#![tactic(auto)]

pub mod keeper;
pub mod line;
pub mod sink;
