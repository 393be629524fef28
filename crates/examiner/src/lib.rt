// The examiner: histories of calls, the guarantee about them, and calls that examine two sittings side by side.
#![tactic(auto)]

pub mod caches;
pub mod compare;
mod display;
pub mod examine;
pub mod guarantee;
pub mod side;
pub mod worked;
