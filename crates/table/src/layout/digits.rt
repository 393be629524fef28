// The used tags of a query as the digits of a number, and back.
ghost use Rattle.std.specs.Prelude.{◌≡◌, ◌+◌, ◌*◌, ◌^◌, ◌<◌, ◌≤◌};
ghost use Rattle.labels.specs.Order.{tag};
ghost use Rattle.rules.specs.Class.{class_number};
ghost use Rattle.rules.specs.QueryTag.{weight_of};
ghost use Rattle.table.specs.Numbering.{digit, number, last_digit, digits_before, query_of};

use super::Layout;
use labels::cell::Tag;
use rules::class::Class;
use rules::mask::{Mask, QueryTag};
use rules::query::Query;

impl Layout {
    // One more digit for a used tag.
    fn with_digit(&self, mask: Mask, which: QueryTag, digits: usize, tag: Tag) -> usize
        requires { digits < 2 ^ 50 }
        ensures value { result ≡ digit self.now.labels mask.0 (weight_of which) digits tag }
        ensures bound { result ≤ digits * 8 + 65535 }
    {
        if mask.uses(which) {
            digits * self.labels as usize + tag.0 as usize
        } else {
            digits
        }
    }

    // The used tags as digits, the first most significant. The six stand in turn: the closure of a fold cannot say that the
    // digits before fit.
    pub(crate) fn number(&self, mask: Mask, query: &Query) -> usize
        ensures value { result ≡ number self.now.labels mask.0 query.now }
        ensures bound { result < 2 ^ 57 }
    {
        let digits = self.with_digit(mask, QueryTag::Pc, 0, query.pc);
        let digits = self.with_digit(mask, QueryTag::Instruction, digits, query.instruction);
        let digits = self.with_digit(mask, QueryTag::D, digits, query.d);
        let digits = self.with_digit(mask, QueryTag::A, digits, query.a);
        let digits = self.with_digit(mask, QueryTag::B, digits, query.b);
        self.with_digit(mask, QueryTag::Memory, digits, query.memory)
    }

    // The tag that the last digit is, if it is used, and the digits before it.
    fn split_digit(&self, mask: Mask, which: QueryTag, digits: usize) -> (Tag, usize)
        ensures { result ≡ (tag (last_digit self.now.labels mask.0 (weight_of which) digits), digits_before self.now.labels mask.0 (weight_of which) digits) }
    {
        if mask.uses(which) {
            let labels = self.labels as usize;
            (Tag((digits % labels) as u16), digits / labels)
        } else {
            (Tag(0), digits)
        }
    }

    // The query of a class whose used tags are these digits.
    pub(crate) fn query_of(&self, class: Class, digits: usize) -> Query
        ensures { result ≡ query_of self.now.labels (class_number class) digits }
    {
        let mask = class.mask();
        let (memory, digits) = self.split_digit(mask, QueryTag::Memory, digits);
        let (b, digits) = self.split_digit(mask, QueryTag::B, digits);
        let (a, digits) = self.split_digit(mask, QueryTag::A, digits);
        let (d, digits) = self.split_digit(mask, QueryTag::D, digits);
        let (instruction, digits) = self.split_digit(mask, QueryTag::Instruction, digits);
        let (pc, _) = self.split_digit(mask, QueryTag::Pc, digits);
        Query {
            class: class.number(),
            pc,
            instruction,
            d,
            a,
            b,
            memory,
        }
    }
}
