// The words of the session text, each told from any other.
#![tactic(auto)]

pub mod verb;
