// The machine: what it holds, the faults that end it, and what an instruction needs, asks and does.
#![tactic(auto)]

mod effect;
pub mod fault;
pub mod frames;
pub mod machine;
pub mod progress;
mod query;
