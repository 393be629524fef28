// The rule cache over any engine.
ghost use Rattle.std.specs.Prelude.{◌≡◌};
ghost use Rattle.rules.specs.Book.{Book};
ghost use Rattle.cache.specs.RuleCache.{new_cache, counts_of, Asked, Means};
ghost use Rattle.cache.specs.FaithfulCache.{cache_faithful};

use crate::line::{Line, line_number};
use crate::lines::Lines;
use rules::engine::Engine;
use rules::query::{Query, Verdict};

// Each stops at 4,294,967,295.
#[derive(Clone, Copy, PartialEq, Eq)]
pub struct Counts {
    pub hits: u32,
    pub misses: u32,
}

// Keeps the grants of an engine, so that an equal query need not be asked again.
#[derive(Drop)]
pub struct RuleCache<E: Engine> {
    engine: E,
    lines: Lines,
    counts: Counts,
}

impl<E: Engine> RuleCache<E> {
    // A new cache is empty, and means whatever the engine below means.
    pub fn new(engine: E) -> RuleCache<E>
        ensures empty { result ≡ new_cache engine }
        ensures means_what_the_engine_means { (b : Book) → E.means engine b → Means E.means result b }
    {
        RuleCache {
            engine,
            lines: Lines::new(),
            counts: Counts { hits: 0, misses: 0 },
        }
    }

    // How many calls were hits and how many were misses so far.
    pub fn counts(&self) -> Counts
        ensures { result ≡ counts_of self.now }
    {
        self.counts
    }

    // The engine below, as it is now.
    pub fn into_engine(self) -> E
        ensures { result ≡ self.engine }
    {
        self.engine
    }
}

impl<E: Engine> Engine for RuleCache<E> {
    ghost answers = { Asked E.Engine.answers };

    ghost means = { Means E.Engine.means };

    ghost faithful = { cache_faithful E.Engine.answers E.Engine.means E.Engine.faithful };

    fn ask(&mut self, query: Query) -> Verdict {
        let number = line_number(&query);
        if let Some(grant) = self.lines.at(number).grant(&query) {
            self.counts.hits = self.counts.hits.saturating_add(1);
            return Ok(grant);
        }
        self.counts.misses = self.counts.misses.saturating_add(1);
        let grant = self.engine.ask(query)?;
        *self.lines.lend(number) = Line {
            held: Some((query, grant)),
        };
        Ok(grant)
    }
}
