// Tests of the machine on small images: each fault, the frames, the effects, and the binary functions at their edges.
#![tactic(auto)]

pub mod always;
#[cfg(test)]
mod functions;
#[cfg(test)]
mod runs;
