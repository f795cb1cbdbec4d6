// The matching: what an active order trades with the resting ones, and what resting orders trade with one another.
#![tactic(auto)]

mod choosing;
pub mod matcher;
mod measuring;
pub mod meeting;
pub mod rounds;
