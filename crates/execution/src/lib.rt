// Execution: one step over any engine, and a run of steps with a budget.
#![tactic(auto)]

pub mod code;
pub mod outcome;
mod question;
pub mod run;
pub mod step;
