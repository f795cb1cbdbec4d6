// A whole day: calls made one after another on what the one before left, and the law that every such day keeps.
#![tactic(auto)]

pub mod item;
pub mod keeper;
pub mod recorder;
pub mod replay;
