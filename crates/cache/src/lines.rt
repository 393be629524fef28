// The sixty-four lines of a rule cache: a plain array, so that a cache asks for no memory. A type of its own, since a rule of
// the project wants an inner table that lends a line to be rewritten.
ghost use Rattle.std.specs.Prelude.{◌≡◌, length};

pub mod lend;

use crate::line::Line;

#[derive(Drop)]
pub struct Lines {
    all: [Line; 64],
    ghost sized: { length all ≡ 64 },
}
