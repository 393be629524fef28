// A new sitting, and what can be read of one.
ghost use Rattle.std.specs.Prelude.{◌≡◌, ◌≤◌};
ghost use Rattle.machine.specs.Machine.{register_named};
ghost use Rattle.sitting.specs.Sitting.{standing, blank, lengths_fit};

use crate::sitting::{Opening, Sitting, State};
use image::header::Header;
use labels::cell::{Cell, Tag};
use machine::machine::Machine;

impl Sitting {
    // A blank one.
    pub fn new() -> Sitting
        ensures { standing result ≡ blank }
    {
        Sitting {
            state: State::Blank,
            opening: Opening::default(),
            machine: Machine::new(),
        }
    }

    pub fn state(&self) -> State
        ensures { result ≡ (standing self.now).state }
    {
        self.state
    }

    // The header of the image that was opened; all zero in a new sitting.
    pub fn header(&self) -> Header
        ensures answer { result ≡ (standing self.now).opening.header }
        ensures cells_counted { result.counts.cells ≤ (standing self.now).opening.cells_length }
    {
        self.opening.header
    }

    // Whether lists handed in have the opening's lengths.
    pub fn lengths_fit(&self, image: &[u8], cells: &[Cell], outputs: &[Cell]) -> bool
        ensures { result ≡ lengths_fit (standing self.now).opening image.now cells.now outputs.now }
    {
        image.len() == self.opening.image_length
            && cells.len() == self.opening.cells_length
            && outputs.len() == self.opening.outputs_length
    }

    // The register of a number below 16.
    pub fn register(&self, number: u8) -> Option<Cell>
        ensures { result ≡ register_named (standing self.now).machine number }
    {
        self.machine.register(number)
    }

    // How many outputs there are so far.
    pub fn output_count(&self) -> usize
        ensures { result ≡ (standing self.now).machine.outputs }
    {
        self.machine.output_count()
    }

    pub fn pc(&self) -> u32
        ensures { result ≡ (standing self.now).machine.pc }
    {
        self.machine.pc()
    }

    pub fn pc_tag(&self) -> Tag
        ensures { result ≡ (standing self.now).machine.pc_tag }
    {
        self.machine.pc_tag()
    }

    // How many steps were granted.
    pub fn steps(&self) -> u32
        ensures { result ≡ (standing self.now).machine.steps }
    {
        self.machine.steps()
    }
}
