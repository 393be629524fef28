// The table: an engine over rows that an order can be compiled into.
#![tactic(auto)]

pub mod compile;
mod layout;
mod packing;
pub mod table;
