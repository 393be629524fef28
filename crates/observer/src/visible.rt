// What a reader sees of a list of cells, written to the front of another list.
ghost use Rattle.std.specs.Prelude.{◌≡◌, ◌≤◌, length, nat_le};
ghost use Rattle.image.specs.Load.{answer, unless_refused};
ghost use Rattle.observer.specs.Observer.{observer_of, seen_cells};
ghost use Rattle.observer.specs.Visible.{room_refusal, written_over};

use crate::reader::Reader;
use labels::cell::Cell;
use labels::order::Order;
use labels::refusal::Refusal;

impl<'o, O: Order> Reader<'o, O> {
    // Writes those of some cells that the reader sees to the front of a list, and answers how many there are; refused,
    // with nothing written, where the list is too short for them.
    pub fn write_visible(&self, cells: &[Cell], page: &mut [Cell]) -> Result<usize, Refusal>
        ensures answer { result ≡ answer (room_refusal (seen_cells (observer_of O.meaning self.now) cells.now) page.old) (length (seen_cells (observer_of O.meaning self.now) cells.now)) }
        ensures written { page.new ≡ unless_refused (room_refusal (seen_cells (observer_of O.meaning self.now) cells.now) page.old) page.old (written_over (seen_cells (observer_of O.meaning self.now) cells.now) page.old) }
    {
        if !self.has_room(cells, page) {
            return Err(Refusal::WrongLength);
        }
        Ok(self.copy_visible(cells, page))
    }

    // Whether a list has room for those of some cells that the reader sees. They are counted only where the list is
    // shorter than the cells are many.
    fn has_room(&self, cells: &[Cell], page: &[Cell]) -> bool
        ensures { result ≡ nat_le (length (seen_cells (observer_of O.meaning self.now) cells.now)) (length page.now) }
    {
        cells.len() <= page.len() || self.count_visible(cells) <= page.len()
    }

    // How many of some cells the reader sees.
    fn count_visible(&self, cells: &[Cell]) -> usize
        ensures { result ≡ length (seen_cells (observer_of O.meaning self.now) cells.now) }
    {
        cells.iter().filter(|cell| self.sees(cell.tag)).count()
    }

    // Writes those of some cells that the reader sees to the front of a list that has room for them, and answers how
    // many there are. The place is counted by hand: in a function of any order, a loop over filtered cells gets no proof.
    fn copy_visible(&self, cells: &[Cell], page: &mut [Cell]) -> usize
        requires { length (seen_cells (observer_of O.meaning self.now) cells.now) ≤ length page.old }
        ensures answer { result ≡ length (seen_cells (observer_of O.meaning self.now) cells.now) }
        ensures written { page.new ≡ written_over (seen_cells (observer_of O.meaning self.now) cells.now) page.old }
    {
        let mut place = 0;
        for cell in cells {
            if let Some(shown) = self.shown(*cell) {
                page[place] = shown;
                place += 1;
            }
        }
        place
    }
}
