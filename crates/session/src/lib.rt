// A session: commands played one after another on the book now open, and the listing of a whole text.
#![tactic(auto)]

pub mod fault;
pub mod session;
pub mod text;
