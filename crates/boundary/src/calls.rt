// The calls of a script, with what each answers written to a transcript.
use crate::engines::Work;
use crate::script::{Call, Script};
use crate::session::{OUTPUT_PLACES, Session};
use crate::transcript::{Answer, Transcript};
use closing::record::{ClosingRecord, RefusedFiling};
use labels::cell::{Cell, Tag, Word};
use labels::name::OrderName;
use labels::order::Order;
use labels::refusal::Refusal;
use orders::named::NamedOrder;
use rules::engine::Engine;
use viewing::peek::Location;

// What a page list holds before it is written.
const UNWRITTEN: Cell = Cell {
    word: Word(0xCCCC_CCCC),
    tag: Tag(0xDDDD),
};

// How long a slot for a closing record is at most.
const SLOT_LENGTH: usize = 16;

// Makes the calls of a script, up to a closing.
#[derive(Drop)]
pub(crate) struct Calls<'s, 'w, 't> {
    pub(crate) script: Script<'s>,
    pub(crate) transcript: &'w mut Transcript<'t>,
}

impl Work for Calls<'_, '_, '_> {
    type Answer = ();

    fn perform<O: Order, E: Engine>(self, order: &O, engine: &mut E, session: &mut Session) {
        let Calls { script, transcript } = self;
        for call in script {
            if let Err(refusal) = transcript.answer(call, order, engine, session) {
                transcript.write_refusal(refusal);
            }
            if let Call::Close { length: _ } = call {
                return;
            }
        }
    }
}

impl Transcript<'_> {
    // Makes one call, and writes what it answers, unless it is refused.
    fn answer<O: Order, E: Engine>(
        &mut self,
        call: Call,
        order: &O,
        engine: &mut E,
        session: &mut Session,
    ) -> Result<(), Refusal> {
        match call {
            Call::Open => {
                session.open(order)?;
                self.write_answer(Answer::Opened);
                Ok(())
            }
            Call::Run { budget } => {
                let granted = session.run(engine, budget)?;
                self.write_answer(Answer::Ran);
                self.write_word(granted);
                Ok(())
            }
            Call::Page { length } => self.page(session, order, 0, length as usize),
            Call::PeekRegister { number } => {
                self.peek(session, order, Location::RegisterNumber(number))
            }
            Call::PeekCell { number } => self.peek(session, order, Location::CellNumber(number)),
            Call::Close { length } => {
                self.file(session.close(), length as usize);
                Ok(())
            }
            Call::PageIn { name } => self.page_in(session, name),
            Call::PageShorter { by } => self.page(session, order, by as usize, OUTPUT_PLACES),
        }
    }

    // A page with so many output places fewer, into a list of a length.
    fn page<O: Order>(
        &mut self,
        session: &Session,
        order: &O,
        fewer: usize,
        length: usize,
    ) -> Result<(), Refusal> {
        let mut list = [UNWRITTEN; OUTPUT_PLACES];
        let list = &mut list[..length.min(OUTPUT_PLACES)];
        let page = session.page(order, fewer, list)?;
        self.write_answer(Answer::Paged);
        self.write_short(page.outputs.min(OUTPUT_PLACES) as u16);
        self.write_byte(u8::from(page.end_mark));
        self.write_cells(list);
        Ok(())
    }

    // A page in the order that a name stands for. An arm for each make of order, since no closure is generic in a type.
    fn page_in(&mut self, session: &Session, name: OrderName) -> Result<(), Refusal> {
        match NamedOrder::try_from(name)? {
            NamedOrder::TwoPoint(order) => self.page(session, &order, 0, OUTPUT_PLACES),
            NamedOrder::BarredSets(order) => self.page(session, &order, 0, OUTPUT_PLACES),
            NamedOrder::Clearances(order) => self.page(session, &order, 0, OUTPUT_PLACES),
        }
    }

    fn peek<O: Order>(
        &mut self,
        session: &Session,
        order: &O,
        at: Location,
    ) -> Result<(), Refusal> {
        let shown = session.peek(order, at)?;
        self.write_answer(Answer::Peeked);
        self.write_byte(u8::from(shown.is_some()));
        if let Some(cell) = shown {
            self.write_cell(cell);
        }
        Ok(())
    }

    // Files a record into a slot of a length, or strikes it out where that is refused.
    fn file(&mut self, record: ClosingRecord, length: usize) {
        let mut slot = [0xEE; SLOT_LENGTH];
        let slot = &mut slot[..length.min(SLOT_LENGTH)];
        let filed = record.file(slot).map_err(RefusedFiling::strike).is_ok();
        self.write_answer(Answer::Filed);
        self.write_byte(u8::from(filed));
        self.write_bytes(slot);
    }
}
