// What one sitting is opened, run and paged in, for who does all three. The calls themselves take the lists one by one:
// an open writes the cells, a run cells and outputs, a page and a peek neither, and none asks for more than that.

use labels::cell::Cell;

// An image with cells, output places and a page list, all lent by the caller.
#[derive(Drop)]
pub struct LentMemory<'i, 'm> {
    pub image: &'i [u8],
    pub cells: &'m mut [Cell],
    pub outputs: &'m mut [Cell],
    pub page: &'m mut [Cell],
}
