// Whether two images are alike to their reader, and where they differ if not.
#![tactic(auto)]

pub mod difference;
mod display;
mod read;
