// What is printed of a comparison.
ghost use Rattle.std.specs.Prelude.{Some};
ghost use Rattle.examiner.specs.Text.{comparison_text};

use crate::compare::Comparison;
use std::fmt;

impl fmt::Display for Comparison {
    ghost output = { λ c. Some (comparison_text c) };

    fn fmt<W: fmt::Write>(&self, f: &mut fmt::Formatter<W>) -> fmt::Result {
        f.write_str(match self {
            Comparison::Equal => "pages equal",
            Comparison::LeftFirst => "left page is the first of the right",
            Comparison::RightFirst => "right page is the first of the left",
            Comparison::Different => "pages different",
        })
    }
}
