// Opening an image in the order that its header names.
ghost use Rattle.std.specs.Prelude.{◌≡◌, true, length, is_err};
ghost use Rattle.labels.specs.Made.{made_as};
ghost use Rattle.orders.specs.Named.{meaning_of};
ghost use Rattle.image.specs.Layout.{header_of};
ghost use Rattle.image.specs.Load.{answer};
ghost use Rattle.sitting.specs.Sitting.{standing};
ghost use Rattle.sitting.specs.Open.{after_call, opened, opened_named, start_refusal, order_found};

use crate::sitting::Sitting;
use image::header::Header;
use labels::cell::Cell;
use labels::refusal::Refusal;
use orders::named::NamedOrder;

impl Sitting {
    // As `open`, in the order that the header names. A name that stands for no order is refused where the order's check
    // has its turn.
    pub fn open_named(
        &mut self,
        image: &[u8],
        cells: &mut [Cell],
        outputs: &[Cell],
    ) -> Result<(), Refusal>
        ensures opened { after_call result (standing self.new) cells.new ≡ opened_named (standing self.old) image.now cells.old (length outputs.now) }
        ensures unchanged_if_refused { is_err result ≡ true → self.new ≡ self.old }
    {
        let order = self.find_order(image)?;
        self.open_in(order, image, cells, outputs)
    }

    // As `open`, in an order of some kind. An arm for each make: a trait's method would need ghost members for what each call
    // promises.
    fn open_in(
        &mut self,
        order: NamedOrder,
        image: &[u8],
        cells: &mut [Cell],
        outputs: &[Cell],
    ) -> Result<(), Refusal>
        ensures opened { after_call result (standing self.new) cells.new ≡ opened (meaning_of order) (standing self.old) image.now cells.old (length outputs.now) }
        ensures unchanged_if_refused { is_err result ≡ true → self.new ≡ self.old }
    {
        match order {
            NamedOrder::TwoPoint(order) => self.open(&order, image, cells, outputs),
            NamedOrder::BarredSets(order) => self.open(&order, image, cells, outputs),
            NamedOrder::Clearances(order) => self.open(&order, image, cells, outputs),
        }
    }

    // The order that the header names, after the checks that come before the order's.
    pub fn find_order(&self, image: &[u8]) -> Result<NamedOrder, Refusal>
        ensures { made_as meaning_of result ≡ order_found (standing self.now) image.now }
    {
        let header = self.check_start(image)?;
        NamedOrder::try_from(header.order)
    }

    // The checks that come before the order's, and the header.
    fn check_start(&self, image: &[u8]) -> Result<Header, Refusal>
        ensures { result ≡ answer (start_refusal (standing self.now) image.now) (header_of image.now) }
    {
        self.check_blank()?;
        let header = Header::read(image)?;
        header.check_version()?;
        Ok(header)
    }
}
