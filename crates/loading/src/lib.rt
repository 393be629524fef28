// Loading: an image is checked against an order, and its cells are copied.
#![tactic(auto)]

pub mod load;
