// The guarantee on a contract: whatever is called on two sittings over alike images, their pages and peeks agree.
ghost use Rattle.examiner.specs.Guarantee.{Guarantee};

use labels::order::Order;
use rules::engine::Engine;

// For every order and engines of any two types.
pub fn noninterference<O: Order, L: Engine, R: Engine>()
    ensures { (o : O) → Guarantee (O.Order.meaning o) L.Engine.answers L.Engine.means R.Engine.answers R.Engine.means }
{}
