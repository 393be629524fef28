// Queries, verdicts, the flow rules and engines.
#![tactic(auto)]

pub mod class;
pub mod engine;
pub mod flow;
pub mod flow_engine;
pub mod flow_violation;
pub mod mask;
pub mod query;
pub mod violation;
