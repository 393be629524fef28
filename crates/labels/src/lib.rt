// Words, tags and cells; refusals; what an order of labels is.
#![tactic(auto)]

pub mod cell;
pub mod name;
pub mod order;
pub mod refusal;
