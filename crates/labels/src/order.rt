// An order of labels: which tags are labels, which flows to which, and joins.
ghost use Rattle.std.specs.Prelude.{◌≡◌, ◌<◌, ℕ};
ghost use Rattle.labels.specs.Order.{Meaning, Label, Laws, parameters_of, name_of, is_named};

use crate::cell::Tag;
use crate::name::{OrderName, Parameters};

// A make of order. It says what labels do; for tags that are no labels, flowing says no and the join is 0.
pub trait Order {
    // The number of the kind.
    const KIND: u8;

    ghost KIND: { ℕ };

    ghost meaning: { Self → Meaning };

    fn parameters(&self) -> Parameters
        ensures answer { result ≡ parameters_of (meaning self.now) }
        ensures kind_constant { (meaning self.now).kind ≡ KIND };

    // Every label is below it.
    fn bound(&self) -> u32
        ensures { result ≡ (meaning self.now).bound };

    fn is_label(&self, tag: Tag) -> bool
        ensures { result ≡ (meaning self.now).label tag };

    // Whether of two labels the first flows to the second.
    fn labels_flow(&self, from: Tag, to: Tag) -> bool
        requires { (Label (meaning self.now) from) × (Label (meaning self.now) to) }
        ensures { result ≡ (meaning self.now).flows from to };

    // The join of two labels.
    fn join_labels(&self, a: Tag, b: Tag) -> Tag
        requires { (Label (meaning self.now) a) × (Label (meaning self.now) b) }
        ensures { result ≡ (meaning self.now).join a b };

    fn flows(&self, from: Tag, to: Tag) -> bool
        ensures { result ≡ (meaning self.now).flows from to }
    {
        self.is_label(from) && self.is_label(to) && self.labels_flow(from, to)
    }

    fn join(&self, a: Tag, b: Tag) -> Tag
        ensures { result ≡ (meaning self.now).join a b }
    {
        if self.is_label(a) && self.is_label(b) {
            self.join_labels(a, b)
        } else {
            Tag(0)
        }
    }

    // Each make proves the laws of an order of what it means.
    ghost lawful: { (o : Self) → Laws (meaning o) };
}

// The order's name: its kind's number and its parameters.
pub fn name_of<O: Order>(order: &O) -> OrderName
    ensures answer { result ≡ name_of (O.meaning order.now) }
    ensures fits { (result.kind < 16) × (result.parameters.p < 16) × (result.parameters.q < 16) }
{
    OrderName {
        kind: O::KIND,
        parameters: order.parameters(),
    }
}

// Whether this is the name of the order.
pub fn has_name<O: Order>(order: &O, name: OrderName) -> bool
    ensures { result ≡ is_named (O.meaning order.now) name }
{
    name_of(order) == name
}
