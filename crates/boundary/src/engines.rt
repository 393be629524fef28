// Work that is done in any order over any engine, and the choice of the two.
ghost use Rattle.std.specs.Prelude.{◌≡◌, cond, ◌==◌};
ghost use Rattle.boundary.specs.declared.engines.EngineChoice.TheVariants.{Flow, CachedFlow, Table, CachedTable};

use crate::session::Session;
use cache::rule_cache::{Counts, RuleCache};
use labels::order::Order;
use orders::named::NamedOrder;
use rules::engine::Engine;
use rules::flow_engine::FlowEngine;
use table::compile::compiled_table;
use table::table::{Table, row_count};

// How many rows the greatest table has.
const MOST_ROWS: usize = 14_056;

// What is done in an order over an engine. A trait, since no closure is generic over their types.
pub(crate) trait Work {
    type Answer;

    fn perform<O: Order, E: Engine>(
        self,
        order: &O,
        engine: &mut E,
        session: &mut Session,
    ) -> Self::Answer;
}

// Which engine is made over an order. In place of a table stands the flow engine where an order has too many labels.
#[derive(Clone, Copy)]
pub(crate) enum EngineChoice {
    Flow,
    CachedFlow,
    Table,
    CachedTable,
}

// By its number; any other is the flow engine.
impl From<u8> for EngineChoice {
    ghost from_gives = { λ number choice. choice ≡ cond (number == 1) CachedFlow (cond (number == 2) Table (cond (number == 3) CachedTable Flow)) };

    fn from(number: u8) -> EngineChoice {
        match number {
            1 => EngineChoice::CachedFlow,
            2 => EngineChoice::Table,
            3 => EngineChoice::CachedTable,
            _ => EngineChoice::Flow,
        }
    }
}

impl EngineChoice {
    // Does a work in an order of some kind. Answers what it came to, and the counts of the cache, 0 without one.
    // An arm for each make of order, since no closure is generic in a type.
    pub(crate) fn perform<W: Work>(
        self,
        work: W,
        order: NamedOrder,
        session: &mut Session,
    ) -> (W::Answer, Counts) {
        match order {
            NamedOrder::TwoPoint(order) => self.perform_in(work, order, session),
            NamedOrder::BarredSets(order) => self.perform_in(work, order, session),
            NamedOrder::Clearances(order) => self.perform_in(work, order, session),
        }
    }

    fn perform_in<O: Order + Copy, W: Work>(
        self,
        work: W,
        order: O,
        session: &mut Session,
    ) -> (W::Answer, Counts) {
        if let EngineChoice::Table | EngineChoice::CachedTable = self {
            return self.perform_over_table(work, order, session);
        }
        self.perform_over(work, &order, FlowEngine::new(order), session)
    }

    // Over a table, where the order has few enough labels. Not compiled inline, so that the rows are made for a table alone.
    #[inline(never)]
    fn perform_over_table<O: Order + Copy, W: Work>(
        self,
        work: W,
        order: O,
        session: &mut Session,
    ) -> (W::Answer, Counts) {
        let mut rows = [0; MOST_ROWS];
        match table_in(&order, &mut rows) {
            Some(table) => self.perform_over(work, &order, table, session),
            None => self.perform_over(work, &order, FlowEngine::new(order), session),
        }
    }

    // Compiled inline at all three places, so that what a work leaves unread is not written.
    #[inline(always)]
    fn perform_over<O: Order, E: Engine + Drop, W: Work>(
        self,
        work: W,
        order: &O,
        mut engine: E,
        session: &mut Session,
    ) -> (W::Answer, Counts) {
        if let EngineChoice::CachedFlow | EngineChoice::CachedTable = self {
            let mut cache = RuleCache::new(engine);
            let answer = work.perform(order, &mut cache, session);
            return (answer, cache.counts());
        }
        let answer = work.perform(order, &mut engine, session);
        (answer, Counts { hits: 0, misses: 0 })
    }
}

// A table of an order's flow rules in the first of some rows, if there are enough for its labels.
fn table_in<'a, O: Order>(order: &O, rows: &'a mut [u32]) -> Option<Table<'a>> {
    let labels = u8::try_from(order.bound()).ok()?;
    let count = row_count(labels).ok()?;
    compiled_table(order, rows.get_mut(..count)?).ok()
}
