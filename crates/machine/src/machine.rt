// The machine's state, but for the cells and outputs, which lie in lent memory; and what may be read of it.
ghost use Rattle.std.specs.Prelude.{◌≡◌};
ghost use Rattle.machine.specs.Machine.{held, start, register_named};

use crate::frames::Frames;
use labels::cell::{Cell, Tag};

// Contracts see a machine by `held`. It has no impl Model: a sitting that refuses a call promises that its whole machine
// stays, and under a model it could promise that only of what is held.
#[derive(Clone, Copy)]
pub struct Machine {
    pub(crate) registers: [Cell; 16],
    pub(crate) pc: u32,
    pub(crate) pc_tag: Tag,
    pub(crate) frames: Frames,
    // How many outputs there are so far; they lie in memory that the caller lends.
    pub(crate) outputs: usize,
    // How many steps were granted; the count stops at its greatest value.
    pub(crate) steps: u32,
}

impl Machine {
    // Everything at zero or empty.
    pub fn new() -> Machine
        ensures { held result ≡ start }
    {
        Machine {
            registers: [Cell::default(); 16],
            pc: 0,
            pc_tag: Tag::default(),
            frames: Frames::new(),
            outputs: 0,
            steps: 0,
        }
    }

    pub fn pc(&self) -> u32
        ensures { result ≡ (held self.now).pc }
    {
        self.pc
    }

    pub fn pc_tag(&self) -> Tag
        ensures { result ≡ (held self.now).pc_tag }
    {
        self.pc_tag
    }

    pub fn steps(&self) -> u32
        ensures { result ≡ (held self.now).steps }
    {
        self.steps
    }

    // How many outputs there are so far.
    pub fn output_count(&self) -> usize
        ensures { result ≡ (held self.now).outputs }
    {
        self.outputs
    }

    // The register of a number below 16.
    pub fn register(&self, number: u8) -> Option<Cell>
        ensures { result ≡ register_named (held self.now) number }
    {
        self.registers.get(number as usize).copied()
    }
}
