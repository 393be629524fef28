// Work whose time is measured: opening, a run, and pages, each in memory of its own.
ghost use Rattle.std.specs.Prelude.{◌≤◌};

use crate::engines::{EngineChoice, Work};
use crate::session::{CELLS, OUTPUT_PLACES, Session};
use image::header::Header;
use labels::cell::Cell;
use labels::order::Order;
use labels::refusal::Refusal;
use rules::engine::Engine;
use sitting::sitting::Sitting;

// Opens an image and runs it; then pages it so many times.
#[derive(Clone, Copy)]
pub(crate) struct RunAndPages {
    budget: u32,
    pages: u32,
}

// How many steps were granted, and how many outputs the pages have in all, modulo 2^32.
#[derive(Clone, Copy)]
pub(crate) struct Ran {
    pub(crate) granted: u32,
    pub(crate) visible: u32,
}

impl Work for RunAndPages {
    type Answer = Result<Ran, Refusal>;

    #[inline(always)]
    fn perform<O: Order, E: Engine>(
        self,
        order: &O,
        engine: &mut E,
        session: &mut Session,
    ) -> Result<Ran, Refusal> {
        session.open(order)?;
        let granted = session.run(engine, self.budget)?;
        let mut list = [Cell::default(); OUTPUT_PLACES];
        let mut visible = 0u32;
        for _ in 0..self.pages {
            let page = session.page(order, 0, &mut list)?;
            // There are at most 256; told so, the compiler counts in narrower lanes.
            visible = visible.wrapping_add((page.outputs % 65536) as u32);
        }
        Ok(Ran { granted, visible })
    }
}

// Opens an image, runs it over an engine and pages it so many times.
pub(crate) fn run_and_page(
    image: &[u8],
    choice: EngineChoice,
    budget: u32,
    pages: u32,
) -> Result<Ran, Refusal> {
    let order = Sitting::new().find_order(image)?;
    let mut cells = [Cell::default(); CELLS];
    let mut outputs = [Cell::default(); OUTPUT_PLACES];
    let mut session = Session::new(image, &mut cells[..cells_wanted(image)], &mut outputs);
    let (answer, _) = choice.perform(RunAndPages { budget, pages }, order, &mut session);
    answer
}

// Opens an image so many times, each time in a new sitting and in the same memory; answers how many were granted.
pub(crate) fn open_many(image: &[u8], times: u32) -> u32 {
    let mut cells = [Cell::default(); CELLS];
    let cells = &mut cells[..cells_wanted(image)];
    let outputs = [Cell::default(); OUTPUT_PLACES];
    (0..times)
        .filter(|_| Sitting::new().open_named(image, cells, &outputs).is_ok())
        .count() as u32
}

// How many cells the header asks for, none if there is no header, and at most as many as there may be. Its own: a screen,
// which has the same, is made on a heap, and none is below here.
fn cells_wanted(image: &[u8]) -> usize
    ensures { result ≤ 4096 }
{
    Header::read(image).map_or(0, |header| CELLS.min(header.counts.cells as usize))
}
