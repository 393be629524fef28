// What the program shows of an image: how its sitting went, or why it was refused.
#![tactic(auto)]

pub mod display;
pub mod screen;
pub mod session;
