// The laws of observers on a contract: whatever runs, an observer sees what his own machine reaches.
ghost use Rattle.observer.specs.ObserverLaws.{ObserverLaws};

use labels::order::Order;
use rules::engine::Engine;

// For every order and any engines.
pub fn laws_of_observers<O: Order, E: Engine>()
    ensures { (o : O) → ObserverLaws (O.Order.meaning o) E.Engine.answers E.Engine.means }
{}
