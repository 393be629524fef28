// A session: one sitting from its opening to its page, in memory that is handed in.
ghost use Rattle.std.specs.Prelude.{◌≡◌};
ghost use Rattle.orders.specs.Named.{meaning_of};
ghost use Rattle.sitting.specs.Sitting.{standing};
ghost use Rattle.screen.specs.Screen.{report_of, report_with, session, session_in, image_session};

use cache::flow_cache::flow_cache;
use cache::rule_cache::Counts;
use labels::cell::Cell;
use labels::order::Order;
use labels::refusal::Refusal;
use orders::named::NamedOrder;
use sitting::sitting::{Sitting, State};
use viewing::page::Page;
use viewing::paging;

// How many steps a program is given.
pub const BUDGET: u32 = 100_000;

// How a sitting went. The visible outputs stand at the front of its page list.
#[derive(Clone, Copy)]
pub struct Report {
    pub page: Page,
    pub state: State,
    pub pc: u32,
    pub steps: u32,
    pub cache: Counts,
}

impl Report {
    // How a sitting stands, with its page and the counts of its cache.
    pub fn new(sitting: &Sitting, page: Page, cache: Counts) -> Report
        ensures { result ≡ report_of (standing sitting.now) page cache }
    {
        Report {
            page,
            state: sitting.state(),
            pc: sitting.pc(),
            steps: sitting.steps(),
            cache,
        }
    }
}

// Opens a sitting with an image of any bytes in the order that its header names, runs it and pages it; or answers the
// first refusal.
pub(crate) fn show_image(
    sitting: &mut Sitting,
    image: &[u8],
    cells: &mut [Cell],
    outputs: &mut [Cell],
    page: &mut [Cell],
) -> Result<Report, Refusal>
    ensures { session (report_with result page.new) (standing sitting.new) ≡ image_session (standing sitting.old) image.now cells.old outputs.old page.old }
{
    let order = sitting.find_order(image)?;
    show_in(order, BUDGET, sitting, image, cells, outputs, page)
}

// The same in an order of some kind. An arm for each make: a trait's method would need ghost members for what each call
// promises.
fn show_in(
    order: NamedOrder,
    budget: u32,
    sitting: &mut Sitting,
    image: &[u8],
    cells: &mut [Cell],
    outputs: &mut [Cell],
    page: &mut [Cell],
) -> Result<Report, Refusal>
    ensures { session (report_with result page.new) (standing sitting.new) ≡ session_in (meaning_of order) budget (standing sitting.old) image.now cells.old outputs.old page.old }
{
    match order {
        NamedOrder::TwoPoint(order) => show_sitting(
            order, budget, sitting, image, cells, outputs, page,
        ),
        NamedOrder::BarredSets(order) => show_sitting(
            order, budget, sitting, image, cells, outputs, page,
        ),
        NamedOrder::Clearances(order) => show_sitting(
            order, budget, sitting, image, cells, outputs, page,
        ),
    }
}

// The same in an order, over a cache on its flow engine.
fn show_sitting<O: Order + Copy>(
    order: O,
    budget: u32,
    sitting: &mut Sitting,
    image: &[u8],
    cells: &mut [Cell],
    outputs: &mut [Cell],
    page: &mut [Cell],
) -> Result<Report, Refusal>
    ensures { session (report_with result page.new) (standing sitting.new) ≡ session_in (O.meaning order) budget (standing sitting.old) image.now cells.old outputs.old page.old }
{
    sitting.open(&order, image, cells, outputs)?;
    let mut cache = flow_cache(order);
    sitting.run(&mut cache, budget, image, cells, outputs)?;
    let page = paging::page(sitting, &order, image, cells, outputs, page)?;
    Ok(Report::new(sitting, page, cache.counts()))
}
