// Sittings: an image opened for a reader, with the machine that runs it.
#![tactic(auto)]

pub mod new;
pub mod open;
pub mod open_named;
pub mod run;
pub mod sitting;
pub mod state;
