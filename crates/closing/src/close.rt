// Closing a sitting, and settling its record.
ghost use Rattle.std.specs.Prelude.{◌≡◌};
ghost use Rattle.sitting.specs.Sitting.{standing};
ghost use Rattle.closing.specs.Closing.{closed, state_byte, record_bytes, filing_answer, slot_after_filing};

use crate::record::{ClosingRecord, RefusedFiling};
use labels::refusal::Refusal;
use sitting::sitting::{Sitting, State};

// How many bytes a record has.
pub const RECORD_LENGTH: usize = 12;

// Uses a sitting up, in whatever state it is, and gives its record.
pub fn close(sitting: Sitting) -> ClosingRecord
    ensures { result ≡ closed (standing sitting) }
{
    ClosingRecord {
        state: sitting.state(),
        pc_tag: sitting.pc_tag(),
        pc: sitting.pc(),
        steps: sitting.steps(),
        settled: false,
    }
}

impl ClosingRecord {
    // The twelve bytes that are filed, in the order in which their definition lists them.
    pub fn bytes(&self) -> [u8; RECORD_LENGTH]
        ensures { result ≡ record_bytes self.now }
    {
        let [tag_high, tag_low] = self.pc_tag.0.to_be_bytes();
        let [pc_0, pc_1, pc_2, pc_3] = self.pc.to_be_bytes();
        let [steps_0, steps_1, steps_2, steps_3] = self.steps.to_be_bytes();
        [
            state_byte(self.state),
            0,
            tag_high,
            tag_low,
            pc_0,
            pc_1,
            pc_2,
            pc_3,
            steps_0,
            steps_1,
            steps_2,
            steps_3,
        ]
    }

    // Writes the twelve bytes into a slot of that length, and uses the record up. A refused filing gives it back, and
    // leaves the slot as it was.
    pub fn file(self, slot: &mut [u8]) -> Result<(), RefusedFiling>
        ensures answer { result ≡ filing_answer self slot.old }
        ensures slot { slot.new ≡ slot_after_filing self slot.old }
    {
        if slot.len() != RECORD_LENGTH {
            return Err(RefusedFiling {
                refusal: Refusal::WrongSlotLength,
                owed: self,
            });
        }
        slot.copy_from_slice(&self.bytes());
        self.strike();
        Ok(())
    }

    // Ends the record without writing it.
    pub fn strike(mut self) {
        self.settled = true;
    }
}

// The state's number in the high four bits and its cause in the low four.
fn state_byte(state: State) -> u8
    ensures { result ≡ state_byte state }
{
    state.number() * 16 + state.cause().unwrap_or(0)
}
