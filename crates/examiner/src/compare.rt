// How the outputs of two pages compare.
ghost use Rattle.std.specs.Prelude.{◌≡◌};
ghost use Rattle.examiner.specs.Comparison.{comparison_number, compared};

use labels::cell::Cell;

// Its names say more than an `Option<Ordering>` would, and users are told its numbers.
#[derive(Clone, Copy)]
pub enum Comparison {
    Equal = 0,
    // The left outputs are the first of the right, which has more.
    LeftFirst = 1,
    // The right outputs are the first of the left, which has more.
    RightFirst = 2,
    Different = 3,
}

impl Comparison {
    pub fn number(self) -> u8
        ensures { result ≡ comparison_number self }
    {
        self as u8
    }
}

// Compares place by place, tags included.
pub fn compare_pages(left: &[Cell], right: &[Cell]) -> Comparison
    ensures { result ≡ compared left.now right.now }
{
    match (right.starts_with(left), left.starts_with(right)) {
        (true, true) => Comparison::Equal,
        (true, false) => Comparison::LeftFirst,
        (false, true) => Comparison::RightFirst,
        (false, false) => Comparison::Different,
    }
}
