// The engine that judges by the flow rules of an order.
ghost use Rattle.std.specs.Prelude.{◌≡◌};
ghost use Rattle.rules.specs.Flow.{flow};
ghost use Rattle.rules.specs.Engines.{AnswersBy, MeansBy, flow_book};
ghost use Rattle.rules.specs.FaithfulEngines.{faithful_by};

use crate::engine::Engine;
use crate::flow::judge;
use crate::query::{Query, Verdict};
use labels::order::Order;

#[derive(Drop)]
pub struct FlowEngine<O> {
    order: O,
}

impl<O: Order> FlowEngine<O> {
    pub fn new(order: O) -> FlowEngine<O>
        ensures holds_order { result.order ≡ order }
        ensures means_flow_rules { MeansBy (flow_book O.meaning) result (flow (O.meaning order)) }
    {
        FlowEngine { order }
    }

    // The order back.
    pub fn into_order(self) -> O
        ensures { result ≡ self.order }
    {
        self.order
    }
}

impl<O: Order> Engine for FlowEngine<O> {
    ghost answers = { AnswersBy (flow_book O.Order.meaning) };

    ghost means = { MeansBy (flow_book O.Order.meaning) };

    ghost faithful = { faithful_by (flow_book O.Order.meaning) };

    fn ask(&mut self, query: Query) -> Verdict {
        judge(&self.order, &query)
    }
}
