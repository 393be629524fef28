// A sitting: how far it has come, what its opening fixed, and its machine.
ghost use Rattle.std.specs.Prelude.{◌-◌, ◌*◌, ◌≤◌};

use image::header::Header;
use machine::fault::Fault;
use machine::machine::Machine;
use rules::violation::Violation;

// How far a sitting has come.
#[derive(Clone, Copy)]
pub enum State {
    // Not opened yet.
    Blank,
    Running,
    Halted,
    Faulted(Fault),
    Violated(Violation),
}

// What an opening fixes: the image's header, and the lengths of image, cells and outputs.
#[derive(Clone, Copy, Default)]
pub struct Opening {
    pub header: Header,
    pub image_length: usize,
    pub cells_length: usize,
    pub outputs_length: usize,
}

// Contracts see a sitting by `standing`. It has no impl Model: a call that is refused promises that the whole sitting stays,
// hidden parts too, and under a model it could promise that only of what is seen.
#[derive(Drop)]
pub struct Sitting {
    pub(crate) state: State,
    pub(crate) opening: Opening,
    pub(crate) machine: Machine,
    // The code lies behind the header of an image of the opening's length.
    ghost has_code: { 6 * opening.header.counts.code ≤ opening.image_length - 8 },
    // There are at least as many cells as the header counts.
    ghost has_cells: { opening.header.counts.cells ≤ opening.cells_length },
}
