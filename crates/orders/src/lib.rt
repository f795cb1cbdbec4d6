// The market's vocabulary: prices, lots, quotes, orders and the rows that hold them, fills, receipts and refusals.
#![tactic(auto)]

pub mod amendment;
pub mod call;
pub mod code;
#[cfg(test)]
mod edges;
pub mod entry;
pub mod kind;
pub mod lot;
pub mod mark;
pub mod order;
pub mod price;
pub mod quote;
pub mod refusal;
pub mod row;
pub mod side;
