use orders::order::Order;

// A resting order with the price of its deal with an active one.
#[derive(Clone, Copy)]
pub struct Candidate {
    pub order: Order,
    pub price: u32,
}
