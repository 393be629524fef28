// A session: a sitting, with the memory that each of its calls is handed. What each call answers and leaves, the contracts
// of `sitting`, `viewing` and `closing` say.
use closing::close::close;
use closing::record::ClosingRecord;
use image::header::CELL_LIMIT;
use labels::cell::Cell;
use labels::order::Order;
use labels::refusal::Refusal;
use rules::engine::Engine;
use sitting::sitting::Sitting;
use viewing::page::Page;
use viewing::paging;
use viewing::peek::{Location, peek};

// How many cells a session has at most.
pub(crate) const CELLS: usize = CELL_LIMIT as usize;

// How many output places a session has at most, and how many records a page list.
pub(crate) const OUTPUT_PLACES: usize = 256;

#[derive(Drop)]
pub(crate) struct Session<'i, 'm> {
    pub(crate) sitting: Sitting,
    pub(crate) image: &'i [u8],
    pub(crate) cells: &'m mut [Cell],
    pub(crate) outputs: &'m mut [Cell],
}

impl<'i, 'm> Session<'i, 'm> {
    pub(crate) fn new(
        image: &'i [u8],
        cells: &'m mut [Cell],
        outputs: &'m mut [Cell],
    ) -> Session<'i, 'm> {
        Session {
            sitting: Sitting::new(),
            image,
            cells,
            outputs,
        }
    }

    pub(crate) fn open<O: Order>(&mut self, order: &O) -> Result<(), Refusal> {
        // Lent as `&mut`, since a loan as `&` beside that of the cells gets no proof.
        let outputs = &mut *self.outputs;
        self.sitting.open(order, self.image, self.cells, outputs)
    }

    pub(crate) fn run<E: Engine>(&mut self, engine: &mut E, budget: u32) -> Result<u32, Refusal> {
        self.sitting
            .run(engine, budget, self.image, self.cells, self.outputs)
    }

    // A page into a list, with so many output places fewer.
    pub(crate) fn page<O: Order>(
        &self,
        order: &O,
        fewer: usize,
        list: &mut [Cell],
    ) -> Result<Page, Refusal> {
        let places = self.outputs.len().saturating_sub(fewer);
        let outputs = &self.outputs[..places];
        paging::page(&self.sitting, order, self.image, self.cells, outputs, list)
    }

    pub(crate) fn peek<O: Order>(&self, order: &O, at: Location) -> Result<Option<Cell>, Refusal> {
        peek(
            &self.sitting,
            order,
            self.image,
            self.cells,
            self.outputs,
            at,
        )
    }

    // Closes the sitting, in whose place a new one stands.
    pub(crate) fn close(&mut self) -> ClosingRecord {
        close(std::mem::replace(&mut self.sitting, Sitting::new()))
    }
}
