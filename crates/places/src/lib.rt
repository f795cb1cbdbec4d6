// What the calls of a book do with the places, rows and phases that they are handed.
#![tactic(auto)]

pub mod phase;
pub mod remainders;
pub mod searching;
