// Writing and opening: a written image opens to the start that it was written from.
#![tactic(auto)]

pub mod opens;
