// What is shown of an image.
ghost use Rattle.std.specs.Prelude.{◌≡◌, replicate, IfOk};
ghost use Rattle.machine.specs.Machine.{zero_cell};
ghost use Rattle.sitting.specs.Sitting.{standing};
ghost use Rattle.screen.specs.Screen.{shown_on, session, cells_wanted, screen_session, screen_of};

use crate::session::{Report, show_image};
use image::header::Header;
use labels::cell::Cell;
use labels::refusal::Refusal;
use sitting::sitting::Sitting;
use std::alloc::{AllocError, Global};

// How many outputs a program makes room for.
const OUTPUT_PLACES: usize = 256;

#[derive(Drop)]
pub struct Screen {
    // How the sitting went, or why it was refused.
    pub report: Result<Report, Refusal>,
    // The page list, with the visible outputs at its front. The contract promises the whole list, not its front alone.
    pub page: Vec<Cell>,
}

impl Screen {
    // Opens an image of any bytes in the order that its header names, runs it and pages it. The contract fixes all that is
    // shown but for the counts of the cache, which it leaves free.
    pub fn new(heap: Global, image: &[u8]) -> Result<Screen, AllocError>
        ensures { IfOk result (λ s. shown_on s ≡ screen_of image.now) }
    {
        let mut sitting = Sitting::new();
        Screen::of_sitting(heap, &mut sitting, image)
    }

    // The same with a sitting that is handed in. The contract fixes where it then stands, too.
    pub fn of_sitting(
        heap: Global,
        sitting: &mut Sitting,
        image: &[u8],
    ) -> Result<Screen, AllocError>
        ensures { IfOk result (λ s. session (shown_on s) (standing sitting.new) ≡ screen_session (standing sitting.old) image.now) }
    {
        let mut cells = zero_cells(heap, cells_wanted(image))?;
        let mut outputs = output_places(heap)?;
        let mut page = output_places(heap)?;
        let report = show_image(
            sitting,
            image,
            cells.as_mut_slice(),
            outputs.as_mut_slice(),
            page.as_mut_slice(),
        );
        Ok(Screen { report, page })
    }
}

// How many cells the header asks for; none if there is no header.
pub fn cells_wanted(image: &[u8]) -> usize
    ensures { result ≡ cells_wanted image.now }
{
    Header::read(image).map_or(0, |header| header.counts.cells as usize)
}

// Room for the outputs of a program, and for a page of them.
pub fn output_places(heap: Global) -> Result<Vec<Cell>, AllocError>
    ensures { IfOk result (λ v. v.items ≡ replicate 256 zero_cell) }
{
    zero_cells(heap, OUTPUT_PLACES)
}

// Cells of word and tag 0.
pub fn zero_cells(heap: Global, count: usize) -> Result<Vec<Cell>, AllocError>
    ensures { IfOk result (λ v. v.items ≡ replicate count zero_cell) }
{
    vec![in heap; Cell::default(); count]
}
