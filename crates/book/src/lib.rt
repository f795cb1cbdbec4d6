// A book: the places lent with every call, the calls and their replies, over any priority and any terms.
#![tactic(auto)]

mod admitting;
mod amending;
mod answering;
pub mod book;
mod entering;
mod opening;
mod quoting;
mod settling;
mod turning;
mod withdrawing;
