// The guarantee is not empty: two images that differ in a secret alone, and both come to a marked page.
ghost use Rattle.examiner.specs.Worked.{GuaranteeAtWork};

use crate::guarantee::noninterference;
use orders::two_point::TwoPoint;
use rules::flow_engine::FlowEngine;

// The worked image with 42 and with 0 as its secret, over flow engines of the two-point order.
pub fn worked_images_are_alike()
    ensures { GuaranteeAtWork }
{
    noninterference::<TwoPoint, FlowEngine<TwoPoint>, FlowEngine<TwoPoint>>();
}
