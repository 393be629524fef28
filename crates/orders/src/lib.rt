// The makes of order, and the order that a name stands for.
#![tactic(auto)]

pub mod barred_sets;
pub mod clearances;
pub mod named;
pub mod two_point;
