// Closing a sitting, and the record that is then owed.
#![tactic(auto)]

pub mod close;
pub mod record;
