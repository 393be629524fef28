// Tests of sittings: refusals that no image reaches by itself, images that are written and opened again, and the three calls
// of an examined sitting in one.
#![tactic(auto)]

#[cfg(test)]
mod examined;
#[cfg(test)]
mod opening;
#[cfg(test)]
mod shared;
#[cfg(test)]
mod written;
