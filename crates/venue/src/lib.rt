// The books that a session can open: their terms, and the priority that each is ranked by.
#![tactic(auto)]

pub mod ranking;
pub mod venue;
