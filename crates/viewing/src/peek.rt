// A peek: one register or cell, once the end mark is set.
ghost use Rattle.std.specs.Prelude.{◌≡◌, ◌≤◌, [], length, None};
ghost use Rattle.labels.specs.declared.refusal.Refusal.TheVariants.{NoEndMark, OutOfRange};
ghost use Rattle.image.specs.Load.{check, answer};
ghost use Rattle.observer.specs.Observer.{observer_of};
ghost use Rattle.sitting.specs.Sitting.{standing, machine_state};
ghost use Rattle.viewing.specs.Page.{has_end_mark};
ghost use Rattle.viewing.specs.Peek.{in_range, cell_there, peek_answer};

use crate::look::{check_look, end_mark, reader_of};
use labels::cell::Cell;
use labels::order::Order;
use labels::refusal::Refusal;
use observer::reader::Reader;
use sitting::sitting::Sitting;

// A register or a cell, by its number.
#[derive(Clone, Copy)]
pub enum Location {
    RegisterNumber(u8),
    CellNumber(u32),
}

// Answers word and tag of a register or cell, or none where the tag is not visible; or answers the first refusal.
pub fn peek<O: Order>(
    sitting: &Sitting,
    order: &O,
    image: &[u8],
    cells: &[Cell],
    outputs: &[Cell],
    at: Location,
) -> Result<Option<Cell>, Refusal>
    ensures { result ≡ peek_answer (O.meaning order.now) (standing sitting.now) image.now cells.now outputs.now at }
{
    check_look(sitting, order, image, cells, outputs)?;
    let reader = reader_of(sitting, order);
    check_end_mark(sitting, &reader)?;
    let cell = cell_there(sitting, cells, at)?;
    Ok(reader.shown(cell))
}

// Refused where the end mark is not set.
fn check_end_mark<O: Order>(sitting: &Sitting, reader: &Reader<O>) -> Result<(), Refusal>
    ensures { result ≡ answer (check (has_end_mark (observer_of O.meaning reader.now) (standing sitting.now)) NoEndMark None) tt }
{
    if end_mark(sitting, reader) {
        Ok(())
    } else {
        Err(Refusal::NoEndMark)
    }
}

// What stands at a location; refused where there is no such register or cell.
fn cell_there(sitting: &Sitting, cells: &[Cell], at: Location) -> Result<Cell, Refusal>
    requires { (standing sitting.now).opening.cells_length ≤ length cells.now }
    ensures { result ≡ answer (check (in_range (standing sitting.now).opening at) OutOfRange None) (cell_there (machine_state (standing sitting.now) cells.now []) at) }
{
    let count = u32::from(sitting.header().counts.cells);
    match at {
        Location::RegisterNumber(number) => sitting.register(number).ok_or(Refusal::OutOfRange),
        Location::CellNumber(number) if number < count => Ok(cells[number as usize]),
        Location::CellNumber(_) => Err(Refusal::OutOfRange),
    }
}
