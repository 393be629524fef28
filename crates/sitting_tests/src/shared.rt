// What these tests share: the order that they open in, and a cell that none of their images has.
use labels::cell::{Cell, Tag, Word};
use labels::name::Parameters;
use orders::two_point::TwoPoint;
use std::test::Fail;

pub(crate) fn order() -> Result<TwoPoint, Fail> {
    match TwoPoint::new(Parameters { p: 0, q: 0 }) {
        Ok(order) => Ok(order),
        Err(_) => Err(Fail::new("the two-point order takes these parameters")),
    }
}

pub(crate) fn marked() -> Cell {
    Cell {
        word: Word(99),
        tag: Tag(9),
    }
}
