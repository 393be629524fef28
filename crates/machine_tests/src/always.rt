// An engine for tests: it answers every query with the verdict that it holds.
ghost use Rattle.std.specs.Prelude.{◌≡◌};
ghost use Rattle.machine_tests.specs.Always.{always_faithful};
ghost use Rattle.rules.specs.declared.query.Query.{Query};

use rules::engine::Engine;
use rules::query::{Query, Verdict};

#[derive(Clone, Copy)]
pub struct Always {
    pub verdict: Verdict,
}

impl Engine for Always {
    ghost answers = { λ e q v f. (v ≡ e.verdict) × (f ≡ e) };

    ghost means = { λ e b. (q : Query) → b q ≡ e.verdict };

    ghost faithful = { always_faithful };

    fn ask(&mut self, _query: Query) -> Verdict {
        self.verdict
    }
}
