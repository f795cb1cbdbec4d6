// Reads a session text: its lines, the words of a line, and numbers. Nothing is copied: lines and words are parts of the
// lent text.
#![tactic(auto)]

pub mod fault;
mod number;
mod part;
pub mod text;
pub mod words;
