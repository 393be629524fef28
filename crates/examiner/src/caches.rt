// Two sittings side by side, each over a rule cache of its own on the order's flow engine.
ghost use Rattle.std.specs.Prelude.{◌≡◌, Some, ◌≢◌};
ghost use Rattle.examiner.specs.Guarantee.{AlikeImages, Guarantee};
ghost use Rattle.examiner.specs.Examined.{memory, side_of, pages_compared};
ghost use Rattle.examiner.specs.Caches.{cache_answers, cache_means, SideExaminedWithCache};
ghost use Rattle.examiner.specs.declared.compare.Comparison.TheVariants.{Different};

use crate::examine::{Examined, examine};
use cache::flow_cache::flow_cache;
use cache::rule_cache::Counts;
use labels::cell::Cell;
use labels::order::Order;

// What was examined, and the counts of both caches.
#[derive(Drop)]
pub struct ExaminedWithCaches {
    pub examined: Examined,
    pub left_counts: Counts,
    pub right_counts: Counts,
}

// As `examine`, over new caches on flow engines: for alike images the pages are never different.
pub fn examine_with_caches<O: Order + Copy>(
    order: O,
    budget: u32,
    left_image: &[u8],
    left_cells: &mut [Cell],
    left_outputs: &mut [Cell],
    left_page: &mut [Cell],
    right_image: &[u8],
    right_cells: &mut [Cell],
    right_outputs: &mut [Cell],
    right_page: &mut [Cell],
) -> ExaminedWithCaches
    ensures left { SideExaminedWithCache O.Order.meaning order (memory left_image.now left_cells.old left_outputs.old) left_page.old budget (side_of result.examined.left left_cells.new left_outputs.new left_page.new) result.left_counts }
    ensures right { SideExaminedWithCache O.Order.meaning order (memory right_image.now right_cells.old right_outputs.old) right_page.old budget (side_of result.examined.right right_cells.new right_outputs.new right_page.new) result.right_counts }
    ensures comparison { result.examined.comparison ≡ pages_compared result.examined.left.page left_page.new result.examined.right.page right_page.new }
    ensures guarantee { Guarantee (O.Order.meaning order) (cache_answers O.Order.meaning) (cache_means O.Order.meaning) (cache_answers O.Order.meaning) (cache_means O.Order.meaning) }
    ensures never_different { AlikeImages (O.Order.meaning order) left_image.now right_image.now → result.examined.comparison ≢ Some Different }
{
    let mut left_cache = flow_cache(order);
    let mut right_cache = flow_cache(order);
    let examined = examine(
        &order,
        budget,
        &mut left_cache,
        left_image,
        left_cells,
        left_outputs,
        left_page,
        &mut right_cache,
        right_image,
        right_cells,
        right_outputs,
        right_page,
    );
    ExaminedWithCaches {
        examined,
        left_counts: left_cache.counts(),
        right_counts: right_cache.counts(),
    }
}
