// Priorities: which of two resting orders an active one meets first.
#![tactic(auto)]

pub mod candidate;
#[cfg(test)]
mod edges;
pub mod priority;
pub mod ranking;
