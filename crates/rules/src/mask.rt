// Which tags the rule of each class uses, and queries with the others cleared.
ghost use Rattle.std.specs.Prelude.{◌≡◌, Bool, count_ones};
ghost use Rattle.labels.specs.Order.{Meaning};
ghost use Rattle.labels.specs.declared.cell.Tag.{Tag};
ghost use Rattle.rules.specs.Class.{class_number};
ghost use Rattle.rules.specs.Rules.{rule, mask_of, MasksNameTheTagsRead};
ghost use Rattle.rules.specs.Flow.{uses, unused_or, each_used, Computes, flow};
ghost use Rattle.rules.specs.QueryTag.{weight_of};
ghost use Rattle.rules.specs.Cleared.{kept, cleared_by, cleared};

use crate::class::Class;
use crate::query::Query;
use labels::cell::Tag;

// The tags of a query that a rule uses, by the sum of their weights.
#[derive(Clone, Copy, PartialEq, Eq)]
pub struct Mask(pub u8);

// The six tags of a query, each with its weight in a mask.
#[derive(Clone, Copy, PartialEq, Eq)]
pub enum QueryTag {
    Pc = 32,
    Instruction = 16,
    D = 8,
    A = 4,
    B = 2,
    Memory = 1,
}

impl QueryTag {
    const ALL: [QueryTag; 6] = [
        QueryTag::Pc,
        QueryTag::Instruction,
        QueryTag::D,
        QueryTag::A,
        QueryTag::B,
        QueryTag::Memory,
    ];
}

// The masks of the classes in turn, as numbers: a project rule wants one constant table of them, whose rule is proved once
// over the whole of it (`mask_of`), and which compiling, judging and clearing read.
const MASKS: [u8; 14] = [32, 56, 44, 46, 45, 39, 36, 36, 32, 32, 1, 36, 56, 32];

impl Class {
    // The tags that the rule of the class uses.
    pub fn mask(self) -> Mask
        ensures { result.0 ≡ (rule (class_number self)).mask }
    {
        Mask(MASKS[self as usize])
    }
}

// The tags that the rule of a class uses, if the number is that of a class. A number in and a number out: an engine may be
// asked any class, and its mask is then told without a type of this crate.
pub fn mask_of(class: u8) -> Option<u8>
    ensures answer { result ≡ mask_of class }
    ensures masks_name_the_tags_read { MasksNameTheTagsRead }
{
    let class = Class::try_from(class).ok()?;
    Some(class.mask().0)
}

impl Mask {
    // Whether a tag is used.
    pub fn uses(self, which: QueryTag) -> bool
        ensures { result ≡ uses self.0 (weight_of which) }
    {
        self.0 & which as u8 != 0
    }

    // How many tags are used.
    pub fn count(self) -> u32
        ensures { result ≡ count_ones self.0 }
    {
        self.0.count_ones()
    }

    // Whether each used tag passes a test.
    pub fn each_used<F: Fn(Tag) -> bool>(self, query: &Query, test: F) -> bool
        requires { F.IsAlwaysCallable test }
        ensures { (passes : Tag → Bool) → Computes (F.post test) passes → result ≡ each_used passes self.0 query.now }
    {
        QueryTag::ALL
            .iter()
            .all(|which| !self.uses(*which) || test(query.tag(*which)))
    }

    // A used tag as it is, and 0 for an unused one.
    fn kept(self, which: QueryTag, tag: Tag) -> Tag
        ensures { result ≡ kept self.0 (weight_of which) tag }
    {
        if self.uses(which) { tag } else { Tag(0) }
    }

    // The query with 0 in the place of each unused tag.
    fn cleared(self, query: Query) -> Query
        ensures { result ≡ cleared_by self.0 query }
    {
        Query {
            class: query.class,
            pc: self.kept(QueryTag::Pc, query.pc),
            instruction: self.kept(QueryTag::Instruction, query.instruction),
            d: self.kept(QueryTag::D, query.d),
            a: self.kept(QueryTag::A, query.a),
            b: self.kept(QueryTag::B, query.b),
            memory: self.kept(QueryTag::Memory, query.memory),
        }
    }
}

// The query with its unused tags cleared: the flow rules of every order judge it alike.
pub fn cleared(query: Query) -> Query
    ensures answer { result ≡ cleared query }
    ensures judged_alike { (m : Meaning) → flow m result ≡ flow m query }
{
    match Class::try_from(query.class) {
        Ok(class) => class.mask().cleared(query),
        Err(_) => query,
    }
}
