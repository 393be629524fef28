// One side of an examination: a new sitting that is opened, run and paged.
ghost use Rattle.std.specs.Prelude.{◌≡◌};
ghost use Rattle.rules.specs.Book.{Book};
ghost use Rattle.sitting.specs.Sitting.{standing};
ghost use Rattle.viewing.specs.Lent.{SameLoans};
ghost use Rattle.examiner.specs.Examined.{memory, memory_of, side_with, side_of, side_in, examined_by, ExaminedFrom, SideExamined};

use labels::cell::Cell;
use labels::order::Order;
use labels::refusal::Refusal;
use rules::engine::Engine;
use sitting::sitting::Sitting;
use viewing::lent::LentMemory;
use viewing::page::Page;
use viewing::paging;

// The sitting as it was left, and the page's answer or the first refusal.
#[derive(Drop)]
pub struct SideSeen {
    pub sitting: Sitting,
    pub page: Result<Page, Refusal>,
}

// Opens a new sitting, and where that is granted runs and pages it. It takes the lists one by one: of vectors that are lent
// inside a struct nothing would be known afterwards.
pub fn examine_side<O: Order, E: Engine>(
    order: &O,
    engine: &mut E,
    budget: u32,
    image: &[u8],
    cells: &mut [Cell],
    outputs: &mut [Cell],
    page: &mut [Cell],
) -> SideSeen
    ensures { SideExamined E.Engine.answers (O.Order.meaning order.now) E.Engine.means (memory image.now cells.old outputs.old) page.old budget engine.old (side_of result cells.new outputs.new page.new) engine.new }
{
    let mut lent = LentMemory {
        image,
        cells,
        outputs,
        page,
    };
    examine_lent(order, engine, budget, &mut lent)
}

// The same in lent memory.
pub(crate) fn examine_lent<O: Order, E: Engine>(
    order: &O,
    engine: &mut E,
    budget: u32,
    lent: &mut LentMemory,
) -> SideSeen
    ensures same_loans { SameLoans lent.old lent.new }
    ensures examined { SideExamined E.Engine.answers (O.Order.meaning order.now) E.Engine.means (memory_of lent.old) lent.old.page.now budget engine.old (side_in result lent.new) engine.new }
{
    let mut sitting = Sitting::new();
    let page = open_run_page(&mut sitting, order, engine, budget, lent);
    SideSeen { sitting, page }
}

// Opens, runs and pages a sitting in lent memory, up to the first refusal. These are three calls: the refused one changes
// nothing, and what the granted ones before it did stands.
pub fn open_run_page<O: Order, E: Engine>(
    sitting: &mut Sitting,
    order: &O,
    engine: &mut E,
    budget: u32,
    lent: &mut LentMemory,
) -> Result<Page, Refusal>
    ensures same_loans { SameLoans lent.old lent.new }
    ensures examined { ExaminedFrom E.Engine.answers (O.Order.meaning order.now) (standing sitting.old) (memory_of lent.old) lent.old.page.now budget engine.old (side_with result (standing sitting.new) lent.new) engine.new }
    ensures by_book { (book : Book) → E.Engine.means engine.old book → (side_with result (standing sitting.new) lent.new ≡ examined_by book (O.Order.meaning order.now) (standing sitting.old) (memory_of lent.old) lent.old.page.now budget) × E.Engine.means engine.new book }
{
    let image = lent.image;
    let cells = &mut *lent.cells;
    let outputs = &mut *lent.outputs;
    sitting.open(order, image, cells, outputs)?;
    sitting.run(engine, budget, image, cells, outputs)?;
    paging::page(sitting, order, image, cells, outputs, lent.page)
}
