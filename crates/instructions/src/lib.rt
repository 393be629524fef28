// Instructions: how 32 bits are decoded, and what a binary instruction computes.
#![tactic(auto)]

pub mod binary;
pub mod decode;
pub mod instruction;
