// The two-point order: of the labels 0 and 1 only 1 to 0 does not flow.
ghost use Rattle.std.specs.Prelude.{◌≡◌};
ghost use Rattle.orders.specs.Makes.{two_point, two_point_of};
ghost use Rattle.labels.specs.Made.{made_as};
ghost use Rattle.orders.specs.LawfulMakes.{two_point_lawful};

use labels::cell::Tag;
use labels::name::Parameters;
use labels::order::Order;
use labels::refusal::Refusal;

// How many labels there are.
const LABELS: u16 = 2;

#[derive(Clone, Copy)]
pub struct TwoPoint;

impl TwoPoint {
    // It has no parameters: both must be 0.
    pub fn new(parameters: Parameters) -> Result<TwoPoint, Refusal>
        ensures { made_as (λ _. two_point) result ≡ two_point_of parameters }
    {
        if parameters.p == 0 && parameters.q == 0 {
            Ok(TwoPoint)
        } else {
            Err(Refusal::WrongOrder)
        }
    }
}

impl Order for TwoPoint {
    const KIND: u8 = 1;

    ghost KIND = { 1 };

    ghost meaning = { λ _. two_point };

    fn parameters(&self) -> Parameters {
        Parameters { p: 0, q: 0 }
    }

    fn bound(&self) -> u32 {
        u32::from(LABELS)
    }

    fn is_label(&self, tag: Tag) -> bool {
        tag.0 < LABELS
    }

    fn labels_flow(&self, from: Tag, to: Tag) -> bool {
        from.0 <= to.0
    }

    fn join_labels(&self, a: Tag, b: Tag) -> Tag {
        Tag(a.0.max(b.0))
    }

    ghost lawful = { λ _. two_point_lawful };
}
