// The order that a name stands for.
ghost use Rattle.std.specs.Prelude.{◌≡◌};
ghost use Rattle.orders.specs.Makes.{order_named};
ghost use Rattle.labels.specs.Made.{made_as};
ghost use Rattle.orders.specs.Named.{meaning_of};

use crate::barred_sets::BarredSets;
use crate::clearances::Clearances;
use crate::two_point::TwoPoint;
use labels::name::OrderName;
use labels::order::Order;
use labels::refusal::Refusal;

// An order of some kind, to be matched: it has no one kind itself, so it is no order.
#[derive(Clone, Copy)]
pub enum NamedOrder {
    TwoPoint(TwoPoint),
    BarredSets(BarredSets),
    Clearances(Clearances),
}

// Refused for an unknown kind and for parameters that the kind does not take.
impl TryFrom<OrderName> for NamedOrder {
    type Error = Refusal;

    ghost try_from_gives = { λ name result. made_as meaning_of result ≡ order_named name };

    fn try_from(name: OrderName) -> Result<NamedOrder, Refusal> {
        match name.kind {
            TwoPoint::KIND => TwoPoint::new(name.parameters).map(NamedOrder::TwoPoint),
            BarredSets::KIND => BarredSets::new(name.parameters).map(NamedOrder::BarredSets),
            Clearances::KIND => Clearances::new(name.parameters).map(NamedOrder::Clearances),
            _ => Err(Refusal::WrongOrder),
        }
    }
}
