// A line of the rule cache, and the number of the line that a query goes by.
ghost use Rattle.std.specs.Prelude.{◌≡◌};
ghost use Rattle.cache.specs.Line.{line_number, grant_in};

use labels::cell::Tag;
use rules::query::Query;

// Empty, or a query with its grant.
#[derive(Clone, Copy)]
pub struct Line {
    pub held: Option<(Query, (Tag, Tag))>,
}

impl Line {
    // The grant, where the line holds this very query.
    pub(crate) fn grant(&self, query: &Query) -> Option<(Tag, Tag)>
        ensures { result ≡ grant_in self.now query.now }
    {
        match self.held {
            Some((held, grant)) if held == *query => Some(grant),
            _ => None,
        }
    }
}

// A sum of its own, fixed by its definition: a derived hash would give another line.
pub(crate) fn line_number(query: &Query) -> usize
    ensures { result ≡ line_number query.now }
{
    let sum = query.class as u32
        + 3 * query.pc.0 as u32
        + 5 * query.instruction.0 as u32
        + 7 * query.d.0 as u32
        + 11 * query.a.0 as u32
        + 13 * query.b.0 as u32
        + 17 * query.memory.0 as u32;
    (sum % 64) as usize
}
