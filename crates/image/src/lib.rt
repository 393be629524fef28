// Images: a header, tagged code and tagged cells as bytes, most significant byte first.
#![tactic(auto)]

pub mod entry;
pub mod header;
