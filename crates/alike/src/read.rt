// Reading any bytes as an image; what lies past the end reads as 0.
ghost use Rattle.std.specs.Prelude.{◌≡◌, ℕ, ◌+◌, ◌^◌, ◌<◌, slice_index};
ghost use Rattle.image.specs.Layout.{header_of, code_entry_at, cell_entry_at};

use image::entry::CodeEntry;
use image::header::{ENTRY_LENGTH, HEADER_LENGTH, Header};
use labels::cell::Cell;

// So many bytes from a place on.
fn bytes_at<const N: usize>(image: &[u8], at: usize) -> [u8; N]
    requires { at < 2 ^ 63 }
    ensures { (k : ℕ) → k < N → slice_index result k ≡ slice_index image.now (at + k) }
{
    std::array::from_fn(|i| image.get(at + i).copied().unwrap_or(0))
}

pub(crate) fn read_header(image: &[u8]) -> Header
    ensures { result ≡ header_of image.now }
{
    Header::from(bytes_at(image, 0))
}

// The entry of a number.
pub(crate) fn read_entry(image: &[u8], number: u32) -> CodeEntry
    ensures { result ≡ code_entry_at image.now number }
{
    CodeEntry::from(bytes_at(image, HEADER_LENGTH + ENTRY_LENGTH * number as usize))
}

// The cell of a number, behind so many code entries.
pub(crate) fn read_cell(image: &[u8], code: u16, number: u16) -> Cell
    ensures { result ≡ cell_entry_at image.now (code + number) }
{
    Cell::from(read_entry(image, u32::from(code) + u32::from(number)))
}
