// Where two images differ for their reader.
ghost use Rattle.std.specs.Prelude.{◌≡◌, ℕ, Bool, None};
ghost use Rattle.image.specs.Layout.{code_of, cells_of};
ghost use Rattle.observer.specs.Observer.{observer_of};
ghost use Rattle.examiner.specs.Guarantee.{AlikeImages};
ghost use Rattle.alike.specs.Difference.{Computes, first_difference, first_other, end_difference, same_entry, alike_to, difference_of};

use crate::read::{read_cell, read_entry, read_header};
use labels::cell::Cell;
use labels::order::Order;
use observer::reader::Reader;

// The first thing in which they differ: the reader, a code entry or a cell, by its number from 0.
#[derive(Clone, Copy)]
pub enum Difference {
    Reader,
    CodeEntry(usize),
    Cell(usize),
}

// The first difference of two images, of any bytes, for their reader; none if they are alike to him.
#[tactic(auto, using(crate::proofs::Deciding::none_means_alike, crate::proofs::Deciding::alike_means_none))]
pub fn find_difference<O: Order>(order: &O, left: &[u8], right: &[u8]) -> Option<Difference>
    ensures answer { result ≡ difference_of (O.meaning order.now) left.now right.now }
    ensures none_means_alike { result ≡ None → AlikeImages (O.meaning order.now) left.now right.now }
    ensures alike_means_none { AlikeImages (O.meaning order.now) left.now right.now → result ≡ None }
{
    first_difference(order, left, right)
}

// The reader is compared first, then the code and then the cells.
fn first_difference<O: Order>(order: &O, left: &[u8], right: &[u8]) -> Option<Difference>
    ensures { result ≡ difference_of (O.meaning order.now) left.now right.now }
{
    let label = read_header(left).reader;
    if label != read_header(right).reader {
        return Some(Difference::Reader);
    }
    let in_code = code_difference(left, right);
    let in_cells = cell_difference(&Reader::new(order, label), left, right);
    match (in_code, in_cells) {
        (Some(place), _) => Some(Difference::CodeEntry(place)),
        (None, Some(place)) => Some(Difference::Cell(place)),
        (None, None) => None,
    }
}

// The first code entry that is another one, or where the shorter code ends.
fn code_difference(left: &[u8], right: &[u8]) -> Option<usize>
    ensures { result ≡ first_difference same_entry 0 (code_of left.now) (code_of right.now) }
{
    let left_count = read_header(left).counts.code;
    let right_count = read_header(right).counts.code;
    first_other(left_count, right_count, |place| {
        read_entry(left, u32::from(place)) == read_entry(right, u32::from(place))
    })
}

// The first cell that is not alike to the reader, or where the shorter list of cells ends.
fn cell_difference<O: Order>(reader: &Reader<O>, left: &[u8], right: &[u8]) -> Option<usize>
    ensures { result ≡ first_difference (alike_to (observer_of O.meaning reader.now)) 0 (cells_of left.now) (cells_of right.now) }
{
    let left_counts = read_header(left).counts;
    let right_counts = read_header(right).counts;
    first_other(left_counts.cells, right_counts.cells, |place| {
        let left_cell = read_cell(left, left_counts.code, place);
        let right_cell = read_cell(right, right_counts.code, place);
        alike_to(reader, left_cell, right_cell)
    })
}

// The first place at which two lists are not the same, or where the shorter one ends. They are asked by place: an entry
// past the end of an image reads as 0, so there are no lists to go over.
fn first_other<F: Fn(u16) -> bool>(left_count: u16, right_count: u16, same: F) -> Option<usize>
    requires { F.IsAlwaysCallable same }
    ensures { (same_at : ℕ → Bool) → Computes (F.post same) same_at → result ≡ first_other same_at left_count right_count }
{
    let other = (0..left_count.min(right_count)).find(|place| !same(*place));
    match other {
        Some(place) => Some(place as usize),
        None => end_difference(left_count as usize, right_count as usize),
    }
}

// Lists that are the same as far as both go differ where the shorter one ends.
fn end_difference(left_count: usize, right_count: usize) -> Option<usize>
    ensures { result ≡ end_difference left_count right_count }
{
    if left_count == right_count {
        None
    } else {
        Some(left_count.min(right_count))
    }
}

// Neither tag is visible, or tags and words are equal.
fn alike_to<O: Order>(reader: &Reader<O>, left: Cell, right: Cell) -> bool
    ensures { result ≡ alike_to (observer_of O.meaning reader.now) left right }
{
    !reader.sees(left.tag) && !reader.sees(right.tag) || left == right
}
