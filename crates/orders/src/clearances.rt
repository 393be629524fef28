// Clearances: a label is one of p + 1 levels with a set of q compartments, level · 2^q + set.
ghost use Rattle.std.specs.Prelude.{◌≡◌, ◌+◌, ◌*◌, ◌^◌, ◌<◌, ◌≤◌};
ghost use Rattle.orders.specs.Makes.{clearances, clearances_of, level, compartments};
ghost use Rattle.labels.specs.Made.{made_as};
ghost use Rattle.orders.specs.LawfulMakes.{clearances_lawful};

use labels::cell::Tag;
use labels::name::Parameters;
use labels::order::Order;
use labels::refusal::Refusal;

#[derive(Clone, Copy)]
pub struct Clearances {
    // One less than the number of levels.
    p: u8,
    // The number of compartments.
    q: u8,
    // The number of labels, computed once: each tag is compared with it.
    bound: u32,
    ghost p_fits: { p < 16 },
    ghost q_fits: { q ≤ 12 },
    ghost bound_counts: { bound ≡ (p + 1) * 2 ^ q },
}

impl Clearances {
    pub fn new(parameters: Parameters) -> Result<Clearances, Refusal>
        ensures { made_as (λ o. clearances o.p o.q) result ≡ clearances_of parameters }
    {
        if parameters.p < 16 && parameters.q <= 12 {
            Ok(Clearances {
                p: parameters.p,
                q: parameters.q,
                bound: (u32::from(parameters.p) + 1) << parameters.q,
            })
        } else {
            Err(Refusal::WrongOrder)
        }
    }

    // How many sets of compartments there are.
    fn sets(&self) -> u32
        ensures { result ≡ 2 ^ self.now.q }
    {
        1 << self.q
    }

    fn level(&self, tag: Tag) -> u32
        ensures { result ≡ level self.now.q tag.0 }
    {
        tag.0 as u32 / self.sets()
    }

    fn compartments(&self, tag: Tag) -> u32
        ensures { result ≡ compartments self.now.q tag.0 }
    {
        tag.0 as u32 % self.sets()
    }
}

impl Order for Clearances {
    const KIND: u8 = 3;

    ghost KIND = { 3 };

    ghost meaning = { λ o. clearances o.p o.q };

    fn parameters(&self) -> Parameters {
        Parameters {
            p: self.p,
            q: self.q,
        }
    }

    fn bound(&self) -> u32 {
        self.bound
    }

    fn is_label(&self, tag: Tag) -> bool {
        u32::from(tag.0) < self.bound
    }

    fn labels_flow(&self, from: Tag, to: Tag) -> bool {
        let needed = self.compartments(from);
        // No `&&`: it was tried and is slower, since no processor foresees which levels come.
        (self.level(from) <= self.level(to)) & (needed & self.compartments(to) == needed)
    }

    fn join_labels(&self, a: Tag, b: Tag) -> Tag {
        let level = self.level(a).max(self.level(b));
        let set = self.compartments(a) | self.compartments(b);
        Tag((level * self.sets() + set) as u16)
    }

    ghost lawful = { λ o. clearances_lawful o.p o.q o.p_fits o.q_fits };
}
