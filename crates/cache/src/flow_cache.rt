// A rule cache over the flow rules of an order.
ghost use Rattle.std.specs.Prelude.{◌≡◌};
ghost use Rattle.rules.specs.Flow.{flow};
ghost use Rattle.rules.specs.Engines.{MeansBy, flow_book};
ghost use Rattle.cache.specs.RuleCache.{new_cache, Means};

use crate::rule_cache::RuleCache;
use labels::order::Order;
use rules::flow_engine::FlowEngine;

// A new cache over the flow engine of an order: it means the order's flow rules.
pub fn flow_cache<O: Order>(order: O) -> RuleCache<FlowEngine<O>>
    ensures holds_order { result.engine.order ≡ order }
    ensures empty { result ≡ new_cache result.engine }
    ensures means_flow_rules { Means (MeansBy (flow_book O.meaning)) result (flow (O.meaning order)) }
{
    RuleCache::new(FlowEngine::new(order))
}
