// The commands of a session: what a line asks for.
#![tactic(auto)]

pub mod command;
mod phrases;
