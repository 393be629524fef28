// What pages and peeks share: their checks, the reader, and the end mark.
ghost use Rattle.std.specs.Prelude.{◌≡◌, None};
ghost use Rattle.image.specs.Load.{answer};
ghost use Rattle.observer.specs.Observer.{observer_of};
ghost use Rattle.sitting.specs.Sitting.{standing};
ghost use Rattle.viewing.specs.Page.{has_end_mark, look_refusal};

use labels::cell::Cell;
use labels::order::{Order, has_name};
use labels::refusal::Refusal;
use observer::reader::Reader;
use sitting::sitting::{Sitting, State};

// An opened sitting, its order, and memory of the opening's lengths.
pub(crate) fn check_look<O: Order>(
    sitting: &Sitting,
    order: &O,
    image: &[u8],
    cells: &[Cell],
    outputs: &[Cell],
) -> Result<(), Refusal>
    ensures { result ≡ answer (look_refusal (O.meaning order.now) (standing sitting.now) image.now cells.now outputs.now None) tt }
{
    if let State::Blank = sitting.state() {
        return Err(Refusal::WrongState);
    }
    if !has_name(order, sitting.header().order) {
        return Err(Refusal::WrongOrder);
    }
    if !sitting.lengths_fit(image, cells, outputs) {
        return Err(Refusal::WrongLength);
    }
    Ok(())
}

// The reader of the sitting's header.
pub(crate) fn reader_of<'o, O: Order>(sitting: &Sitting, order: &'o O) -> Reader<'o, O>
    ensures order { result.order.now ≡ order.now }
    ensures label { result.label ≡ (standing sitting.now).opening.header.reader }
{
    Reader::new(order, sitting.header().reader)
}

// Whether the sitting is halted and its pc tag is visible.
pub(crate) fn end_mark<O: Order>(sitting: &Sitting, reader: &Reader<O>) -> bool
    ensures { result ≡ has_end_mark (observer_of O.meaning reader.now) (standing sitting.now) }
{
    match sitting.state() {
        State::Halted => reader.sees(sitting.pc_tag()),
        _ => false,
    }
}
