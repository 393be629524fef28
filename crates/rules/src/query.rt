// What an engine is asked, and what it answers.
ghost use Rattle.std.specs.Prelude.{◌≡◌};
ghost use Rattle.rules.specs.Rules.{tag_of};
ghost use Rattle.rules.specs.QueryTag.{input_of};

use crate::mask::QueryTag;
use crate::violation::Violation;
use labels::cell::Tag;

// The class of an instruction, with the tags of the pc, the instruction, the registers d, a and b, and memory.
#[derive(Clone, Copy, PartialEq, Eq)]
pub struct Query {
    // A plain number, since an engine is asked queries of classes that there are not, too.
    pub class: u8,
    pub pc: Tag,
    pub instruction: Tag,
    pub d: Tag,
    pub a: Tag,
    pub b: Tag,
    pub memory: Tag,
}

impl Query {
    // One of its six tags.
    pub(crate) fn tag(&self, which: QueryTag) -> Tag
        ensures { result ≡ tag_of (input_of which) self.now }
    {
        match which {
            QueryTag::Pc => self.pc,
            QueryTag::Instruction => self.instruction,
            QueryTag::D => self.d,
            QueryTag::A => self.a,
            QueryTag::B => self.b,
            QueryTag::Memory => self.memory,
        }
    }
}

// A grant, of the next pc tag and the result tag, or a violation.
pub type Verdict = Result<(Tag, Tag), Violation>;
