// Engines: what judges a query.
ghost use Rattle.std.specs.Prelude.{◌≡◌};
ghost use Rattle.rules.specs.Book.{Verdict as Answer, Book};
ghost use Rattle.rules.specs.declared.query.Query.{Query};

use crate::query::{Query, Verdict};

// An engine takes any query and answers a verdict.
pub trait Engine {
    // What one call may do: an engine, asked this query, may answer this verdict and be left as that engine.
    ghost answers: { Self → Query → Answer → Self → Type 0 };

    // Whether an engine means a book, that is judges by it. One that means none may answer anything.
    ghost means: { Self → Book → Type 0 };

    // An engine that means a book answers by it, and means it afterwards.
    ghost faithful: { (before : Self) (q : Query) (v : Answer) (after : Self) (b : Book) → answers before q v after → means before b → (v ≡ b q) × means after b };

    fn ask(&mut self, query: Query) -> Verdict
        ensures { answers self.old query result self.new };
}
