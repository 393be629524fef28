// A reader of an order as an observer: what he sees of a tag, of a cell and of a list of cells.
ghost use Rattle.std.specs.Prelude.{◌≡◌};
ghost use Rattle.observer.specs.Observer.{observer_of, shown};

use labels::cell::{Cell, Tag};
use labels::order::Order;

// Who sees what flows to his label.
#[derive(Drop)]
pub struct Reader<'o, O> {
    order: &'o O,
    label: Tag,
}

impl<'o, O: Order> Reader<'o, O> {
    // The reader with a label in an order.
    pub fn new(order: &'o O, label: Tag) -> Reader<'o, O>
        ensures order { result.order.now ≡ order.now }
        ensures label { result.label ≡ label }
    {
        Reader { order, label }
    }

    // Whether a tag flows to the reader's label.
    pub fn sees(&self, tag: Tag) -> bool
        ensures { result ≡ observer_of O.meaning self.now tag }
    {
        self.order.flows(tag, self.label)
    }

    // The cell, or none where its tag is not visible.
    pub fn shown(&self, cell: Cell) -> Option<Cell>
        ensures { result ≡ shown (observer_of O.meaning self.now) cell }
    {
        self.sees(cell.tag).then_some(cell)
    }
}
