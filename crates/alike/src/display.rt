// What is printed of a difference.
ghost use Rattle.std.specs.Prelude.{Some};
ghost use Rattle.alike.specs.Text.{difference_text};

use crate::difference::Difference;
use std::fmt;

impl fmt::Display for Difference {
    ghost output = { λ d. Some (difference_text d) };

    fn fmt<W: fmt::Write>(&self, f: &mut fmt::Formatter<W>) -> fmt::Result {
        match self {
            Difference::Reader => write!(f, "the readers differ"),
            Difference::CodeEntry(number) => write!(f, "code entry {number} differs"),
            Difference::Cell(number) => write!(f, "cell {number} differs"),
        }
    }
}
