// Two sittings side by side: what each shows, and how their pages compare.
ghost use Rattle.std.specs.Prelude.{◌≡◌, Some, ◌≢◌};
ghost use Rattle.rules.specs.Flow.{flow};
ghost use Rattle.examiner.specs.Guarantee.{AlikeImages, Guarantee};
ghost use Rattle.viewing.specs.Lent.{SameLoans};
ghost use Rattle.examiner.specs.Examined.{memory, memory_of, side_of, side_in, SideExamined, pages_compared};
ghost use Rattle.examiner.specs.declared.compare.Comparison.TheVariants.{Different};

use crate::compare::{Comparison, compare_pages};
use crate::guarantee::noninterference;
use crate::side::{SideSeen, examine_lent};
use labels::cell::Cell;
use labels::order::Order;
use labels::refusal::Refusal;
use rules::engine::Engine;
use viewing::lent::LentMemory;
use viewing::page::Page;
use viewing::paging::first;

// Both sides, and where both pages were granted how they compare.
#[derive(Drop)]
pub struct Examined {
    pub left: SideSeen,
    pub right: SideSeen,
    pub comparison: Option<Comparison>,
}

// Opens, runs and pages two images side by side, each with an engine and memory of its own.
pub fn examine<O: Order, L: Engine, R: Engine>(
    order: &O,
    budget: u32,
    left_engine: &mut L,
    left_image: &[u8],
    left_cells: &mut [Cell],
    left_outputs: &mut [Cell],
    left_page: &mut [Cell],
    right_engine: &mut R,
    right_image: &[u8],
    right_cells: &mut [Cell],
    right_outputs: &mut [Cell],
    right_page: &mut [Cell],
) -> Examined
    ensures left { SideExamined L.Engine.answers (O.Order.meaning order.now) L.Engine.means (memory left_image.now left_cells.old left_outputs.old) left_page.old budget left_engine.old (side_of result.left left_cells.new left_outputs.new left_page.new) left_engine.new }
    ensures right { SideExamined R.Engine.answers (O.Order.meaning order.now) R.Engine.means (memory right_image.now right_cells.old right_outputs.old) right_page.old budget right_engine.old (side_of result.right right_cells.new right_outputs.new right_page.new) right_engine.new }
    ensures comparison { result.comparison ≡ pages_compared result.left.page left_page.new result.right.page right_page.new }
    ensures guarantee { Guarantee (O.Order.meaning order.now) L.Engine.answers L.Engine.means R.Engine.answers R.Engine.means }
    ensures never_different { L.Engine.means left_engine.old (flow (O.Order.meaning order.now)) → R.Engine.means right_engine.old (flow (O.Order.meaning order.now)) → AlikeImages (O.Order.meaning order.now) left_image.now right_image.now → result.comparison ≢ Some Different }
{
    let mut left_lent = LentMemory {
        image: left_image,
        cells: left_cells,
        outputs: left_outputs,
        page: left_page,
    };
    let mut right_lent = LentMemory {
        image: right_image,
        cells: right_cells,
        outputs: right_outputs,
        page: right_page,
    };
    examine_both(
        order,
        budget,
        left_engine,
        &mut left_lent,
        right_engine,
        &mut right_lent,
    )
}

// The same in lent memory.
fn examine_both<O: Order, L: Engine, R: Engine>(
    order: &O,
    budget: u32,
    left_engine: &mut L,
    left_lent: &mut LentMemory,
    right_engine: &mut R,
    right_lent: &mut LentMemory,
) -> Examined
    ensures left_loans { SameLoans left_lent.old left_lent.new }
    ensures right_loans { SameLoans right_lent.old right_lent.new }
    ensures left { SideExamined L.Engine.answers (O.Order.meaning order.now) L.Engine.means (memory_of left_lent.old) left_lent.old.page.now budget left_engine.old (side_in result.left left_lent.new) left_engine.new }
    ensures right { SideExamined R.Engine.answers (O.Order.meaning order.now) R.Engine.means (memory_of right_lent.old) right_lent.old.page.now budget right_engine.old (side_in result.right right_lent.new) right_engine.new }
    ensures comparison { result.comparison ≡ pages_compared result.left.page left_lent.new.page.now result.right.page right_lent.new.page.now }
    ensures guarantee { Guarantee (O.Order.meaning order.now) L.Engine.answers L.Engine.means R.Engine.answers R.Engine.means }
    ensures never_different { L.Engine.means left_engine.old (flow (O.Order.meaning order.now)) → R.Engine.means right_engine.old (flow (O.Order.meaning order.now)) → AlikeImages (O.Order.meaning order.now) left_lent.old.image.now right_lent.old.image.now → result.comparison ≢ Some Different }
{
    noninterference::<O, L, R>();
    let left = examine_lent(order, left_engine, budget, left_lent);
    let right = examine_lent(order, right_engine, budget, right_lent);
    let comparison = compare_answers(left.page, left_lent, right.page, right_lent);
    Examined {
        left,
        right,
        comparison,
    }
}

// How the records written compare, where both pages were granted.
fn compare_answers(
    left: Result<Page, Refusal>,
    left_lent: &LentMemory,
    right: Result<Page, Refusal>,
    right_lent: &LentMemory,
) -> Option<Comparison>
    ensures { result ≡ pages_compared left left_lent.now.page.now right right_lent.now.page.now }
{
    match (left, right) {
        (Ok(left), Ok(right)) => Some(compare_pages(
            first(left_lent.page, left.outputs),
            first(right_lent.page, right.outputs),
        )),
        _ => None,
    }
}
