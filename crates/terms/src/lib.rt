// Trading terms: when an active order deals with a resting one, and which entries a book takes.
#![tactic(auto)]

pub mod dark;
#[cfg(test)]
mod edges;
mod judging;
pub mod lit;
pub mod rejection;
pub mod terms;
