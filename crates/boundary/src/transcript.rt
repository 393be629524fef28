// Writing the transcript of a case: numbers, most significant byte first, as far as its buffer goes.
use crate::session::Session;
use cache::rule_cache::Counts;
use labels::cell::Cell;
use labels::refusal::Refusal;
use std::io::Write;

// What a call came to, by the byte that its answer begins with; and the end.
#[derive(Clone, Copy)]
pub(crate) enum Answer {
    Opened = 0,
    Ran = 1,
    Paged = 2,
    Peeked = 3,
    Filed = 5,
    Ended = 9,
    Refused = 255,
}

// The part of a buffer that is not written yet.
#[derive(Drop)]
pub(crate) struct Transcript<'t> {
    unwritten: &'t mut [u8],
}

impl<'t> Transcript<'t> {
    pub(crate) fn new(buffer: &'t mut [u8]) -> Transcript<'t> {
        Transcript { unwritten: buffer }
    }

    // How many bytes more there is room for.
    pub(crate) fn room(&self) -> usize {
        self.unwritten.len()
    }

    // Bytes for which there is no room are cut off.
    pub(crate) fn write_bytes(&mut self, bytes: &[u8]) {
        if !self.unwritten.is_empty() {
            let _ = self.unwritten.write(bytes);
        }
    }

    // The same of an array: its length is known, and so it is copied without a call.
    fn write_array<const N: usize>(&mut self, bytes: [u8; N]) {
        match self.unwritten.split_off_mut(..N) {
            Some(front) => front.copy_from_slice(&bytes),
            None => self.write_bytes(&bytes),
        }
    }

    pub(crate) fn write_byte(&mut self, byte: u8) {
        self.write_array([byte]);
    }

    pub(crate) fn write_answer(&mut self, answer: Answer) {
        self.write_byte(answer as u8);
    }

    pub(crate) fn write_short(&mut self, number: u16) {
        self.write_array(number.to_be_bytes());
    }

    pub(crate) fn write_word(&mut self, number: u32) {
        self.write_array(number.to_be_bytes());
    }

    pub(crate) fn write_cell(&mut self, cell: Cell) {
        self.write_word(cell.word.0);
        self.write_short(cell.tag.0);
    }

    pub(crate) fn write_cells(&mut self, cells: &[Cell]) {
        for cell in cells {
            if self.unwritten.is_empty() {
                return;
            }
            self.write_cell(*cell);
        }
    }

    // A refused call: its number, and its place or 0.
    pub(crate) fn write_refusal(&mut self, refusal: Refusal) {
        self.write_answer(Answer::Refused);
        self.write_byte(refusal.number());
        self.write_short(refusal.place().unwrap_or(0));
    }

    // The end: how the sitting stands, the counts of the cache, and all cells and output places.
    pub(crate) fn write_end(&mut self, session: &Session, counts: Counts) {
        let state = session.sitting.state();
        self.write_answer(Answer::Ended);
        self.write_bytes(&[state.number(), state.cause().unwrap_or(0)]);
        self.write_word(session.sitting.pc());
        self.write_word(session.sitting.steps());
        self.write_word(counts.hits);
        self.write_word(counts.misses);
        self.write_cells(session.cells);
        self.write_cells(session.outputs);
    }
}
