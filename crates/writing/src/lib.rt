// Writing images: a reader's label, code entries and cells as the bytes that loading reads.
#![tactic(auto)]

pub mod bytes;
pub mod write;
