// Barred sets: a label says which of p + 1 readers are barred, bit i for reader i.
ghost use Rattle.std.specs.Prelude.{◌≡◌, ◌+◌, ◌^◌, ◌<◌};
ghost use Rattle.orders.specs.Makes.{barred_sets, barred_sets_of};
ghost use Rattle.labels.specs.Made.{made_as};
ghost use Rattle.orders.specs.LawfulMakes.{barred_sets_lawful};

use labels::cell::Tag;
use labels::name::Parameters;
use labels::order::Order;
use labels::refusal::Refusal;

#[derive(Clone, Copy)]
pub struct BarredSets {
    // One less than the number of readers.
    p: u8,
    // The number of labels, computed once: each tag is compared with it.
    bound: u32,
    ghost p_fits: { p < 16 },
    ghost bound_counts: { bound ≡ 2 ^ (p + 1) },
}

impl BarredSets {
    pub fn new(parameters: Parameters) -> Result<BarredSets, Refusal>
        ensures { made_as (λ o. barred_sets o.p) result ≡ barred_sets_of parameters }
    {
        if parameters.p < 16 && parameters.q == 0 {
            Ok(BarredSets {
                p: parameters.p,
                bound: 1 << (parameters.p + 1),
            })
        } else {
            Err(Refusal::WrongOrder)
        }
    }
}

impl Order for BarredSets {
    const KIND: u8 = 2;

    ghost KIND = { 2 };

    ghost meaning = { λ o. barred_sets o.p };

    fn parameters(&self) -> Parameters {
        Parameters { p: self.p, q: 0 }
    }

    fn bound(&self) -> u32 {
        self.bound
    }

    fn is_label(&self, tag: Tag) -> bool {
        u32::from(tag.0) < self.bound
    }

    fn labels_flow(&self, from: Tag, to: Tag) -> bool {
        from.0 & to.0 == from.0
    }

    fn join_labels(&self, a: Tag, b: Tag) -> Tag {
        Tag(a.0 | b.0)
    }

    ghost lawful = { λ o. barred_sets_lawful o.p o.p_fits };
}
