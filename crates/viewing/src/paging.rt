// A page: the outputs that are visible to the sitting's reader, and the end mark.
ghost use Rattle.std.specs.Prelude.{◌≡◌, take};
ghost use Rattle.sitting.specs.Sitting.{standing};
ghost use Rattle.viewing.specs.Page.{page_answer, page_written};

use crate::look::{check_look, end_mark, reader_of};
use crate::page::Page;
use labels::cell::Cell;
use labels::order::Order;
use labels::refusal::Refusal;
use sitting::sitting::Sitting;

// Writes the visible outputs in their order to the front of the page list, and answers how many there are and the end
// mark; or answers the first refusal and changes nothing.
pub fn page<O: Order>(
    sitting: &Sitting,
    order: &O,
    image: &[u8],
    cells: &[Cell],
    outputs: &[Cell],
    page: &mut [Cell],
) -> Result<Page, Refusal>
    ensures answer { result ≡ page_answer (O.meaning order.now) (standing sitting.now) image.now cells.now outputs.now page.old }
    ensures written { page.new ≡ page_written (O.meaning order.now) (standing sitting.now) image.now cells.now outputs.now page.old }
{
    check_look(sitting, order, image, cells, outputs)?;
    let so_far = outputs_so_far(sitting, outputs);
    let reader = reader_of(sitting, order);
    let visible = reader.write_visible(so_far, page)?;
    Ok(Page {
        outputs: visible,
        end_mark: end_mark(sitting, &reader),
    })
}

// The outputs so far; nothing says that there are places for them all.
fn outputs_so_far<'a>(sitting: &Sitting, outputs: &'a [Cell]) -> &'a [Cell]
    ensures { result.now ≡ take (standing sitting.now).machine.outputs outputs.now }
{
    first(outputs, sitting.output_count())
}

// The first so many of a list, or all where it has fewer.
pub fn first(list: &[Cell], count: usize) -> &[Cell]
    ensures { result.now ≡ take count list.now }
{
    list.get(..count).unwrap_or(list)
}
