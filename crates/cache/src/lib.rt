// The rule cache: sixty-four lines over any engine.
#![tactic(auto)]

pub mod flow_cache;
mod line;
mod lines;
pub mod rule_cache;
