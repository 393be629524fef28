// What an observer sees of the machine.
#![tactic(auto)]

pub mod laws;
pub mod reader;
mod visible;
