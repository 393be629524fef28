// Opening an image in an order.
ghost use Rattle.std.specs.Prelude.{◌≡◌, true, length, is_err};
ghost use Rattle.sitting.specs.Sitting.{standing};
ghost use Rattle.sitting.specs.Open.{after_call, opened, blank_checked};

use crate::sitting::{Opening, Sitting, State};
use labels::cell::Cell;
use labels::order::Order;
use labels::refusal::Refusal;
use loading::load::load;
use machine::machine::Machine;

impl Sitting {
    // Opens an image of any bytes in an order: copies its cells, remembers its header and the lengths, and stands running
    // at the machine's start; or answers the first refusal and changes nothing. Compiled inline, so that a sitting which is not
    // used any more is not written.
    #[inline(always)]
    pub fn open<O: Order>(
        &mut self,
        order: &O,
        image: &[u8],
        cells: &mut [Cell],
        outputs: &[Cell],
    ) -> Result<(), Refusal>
        ensures opened { after_call result (standing self.new) cells.new ≡ opened (O.meaning order.now) (standing self.old) image.now cells.old (length outputs.now) }
        ensures unchanged_if_refused { is_err result ≡ true → self.new ≡ self.old }
    {
        self.check_blank()?;
        let header = load(order, image, cells)?;
        self.opening = Opening {
            header,
            image_length: image.len(),
            cells_length: cells.len(),
            outputs_length: outputs.len(),
        };
        self.machine = Machine::new();
        self.state = State::Running;
        Ok(())
    }

    // Refused unless the sitting is blank.
    pub(crate) fn check_blank(&self) -> Result<(), Refusal>
        ensures { result ≡ blank_checked (standing self.now) }
    {
        match self.state {
            State::Blank => Ok(()),
            _ => Err(Refusal::WrongState),
        }
    }
}
