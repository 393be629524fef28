// The bytes of a header, and the places of header and entries in a buffer.
ghost use Rattle.std.specs.Prelude.{◌≡◌, ◌+◌, ◌*◌, ◌<◌, ◌≤◌, length};
ghost use Rattle.image.specs.Entry.{entry_bytes};
ghost use Rattle.writing.specs.Write.{packed, replaced, header_bytes};

use image::entry::CodeEntry;
use image::header::{Counts, ENTRY_LENGTH, HEADER_LENGTH, VERSION};
use labels::cell::Tag;
use labels::name::OrderName;

// Two numbers of four bits as a byte.
fn pack(high: u8, low: u8) -> u8
    requires { (high < 16) × (low < 16) }
    ensures { result ≡ packed high low }
{
    high * 16 + low
}

// The header of version 1. A function, and no `From`: only an order's name is known to fit four bits.
pub(crate) fn header_bytes(name: OrderName, counts: Counts, reader: Tag) -> [u8; HEADER_LENGTH]
    requires kind_fits { name.kind < 16 }
    requires parameters_fit { (name.parameters.p < 16) × (name.parameters.q < 16) }
    ensures { result ≡ header_bytes name counts reader }
{
    let [code_high, code_low] = counts.code.to_be_bytes();
    let [cells_high, cells_low] = counts.cells.to_be_bytes();
    let [reader_high, reader_low] = reader.0.to_be_bytes();
    [
        pack(VERSION, name.kind),
        pack(name.parameters.p, name.parameters.q),
        code_high,
        code_low,
        cells_high,
        cells_low,
        reader_high,
        reader_low,
    ]
}

// Writes an entry at the place of its number.
pub(crate) fn write_entry(buffer: &mut [u8], number: usize, entry: CodeEntry)
    requires { 8 + 6 * number + 6 ≤ length buffer.old }
    ensures { buffer.new ≡ replaced buffer.old (8 + 6 * number) 6 (entry_bytes entry) }
{
    let at = HEADER_LENGTH + ENTRY_LENGTH * number;
    buffer[at..at + ENTRY_LENGTH].copy_from_slice(&<[u8; ENTRY_LENGTH]>::from(entry));
}
