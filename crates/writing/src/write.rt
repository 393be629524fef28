// Writing an image: the parts are checked against an order, and the buffer is filled.
ghost use Rattle.std.specs.Prelude.{◌≡◌, ◌+◌, ◌<◌, true, ◌++◌, length, take, OnOk};
ghost use Rattle.std.specs.List.{flat_map};
ghost use Rattle.image.specs.Entry.{entry_bytes};
ghost use Rattle.image.specs.Layout.{length_of_image};
ghost use Rattle.image.specs.Load.{answer};
ghost use Rattle.writing.specs.Write.{counts_of, entries, EntriesFit, write_refusal, write_answer, write_bytes};
ghost use Rattle.writing.specs.RoundTrip.{LoadsBack, OwnBytes};

use crate::bytes::{header_bytes, write_entry};
use image::entry::CodeEntry;
use image::header::{Counts, HEADER_LENGTH};
use labels::cell::{Cell, Tag};
use labels::order::{Order, name_of};
use labels::refusal::Refusal;
use loading::load::{check_entries, check_tag};

// Checks the parts of an image and fills the buffer with its bytes, or answers the first refusal and changes nothing.
// Reader, code and cells are what an image is made of, each lent by the caller: a struct of them would be made for this call.
pub fn write<O: Order>(
    order: &O,
    reader: Tag,
    code: &[CodeEntry],
    cells: &[Cell],
    buffer: &mut [u8],
) -> Result<(), Refusal>
    ensures answer { result ≡ write_answer (O.meaning order.now) reader code.now cells.now buffer.old }
    ensures bytes { buffer.new ≡ write_bytes (O.meaning order.now) reader code.now cells.now buffer.old }
    ensures loads_back { OnOk result (LoadsBack (O.meaning order.now) reader code.now cells.now buffer.new) }
    ensures own_bytes { OwnBytes (O.meaning order.now) reader code.now cells.now (length buffer.old) result buffer.new }
{
    check_and_fill(order, reader, code, cells, buffer)
}

// The same; the entries were read, so they are known to fit their types.
fn check_and_fill<O: Order>(
    order: &O,
    reader: Tag,
    code: &[CodeEntry],
    cells: &[Cell],
    buffer: &mut [u8],
) -> Result<(), Refusal>
    ensures answer { result ≡ write_answer (O.meaning order.now) reader code.now cells.now buffer.old }
    ensures bytes { buffer.new ≡ write_bytes (O.meaning order.now) reader code.now cells.now buffer.old }
    ensures fits { OnOk result (EntriesFit (entries code.now cells.now)) }
{
    let counts = check(order, reader, code, cells, buffer.len())?;
    buffer[..HEADER_LENGTH].copy_from_slice(&header_bytes(name_of(order), counts, reader));
    write_entries(code, cells, buffer);
    Ok(())
}

// The checks in their order.
fn check<O: Order>(
    order: &O,
    reader: Tag,
    code: &[CodeEntry],
    cells: &[Cell],
    bytes: usize,
) -> Result<Counts, Refusal>
    ensures { result ≡ answer (write_refusal (O.meaning order.now) reader code.now cells.now bytes) (counts_of code.now cells.now) }
{
    let counts = Counts::new(code.len(), cells.len())?;
    if bytes != counts.image_length() {
        return Err(Refusal::WrongLength);
    }
    check_tag(order, reader, 0)?;
    check_entries(order, code, 0)?;
    check_entries(order, cells, code.len())?;
    Ok(counts)
}

// Writes the entries behind the header; by number, since after `chunks_exact_mut(..)` a proof does not know what was written.
fn write_entries(code: &[CodeEntry], cells: &[Cell], buffer: &mut [u8])
    requires { length buffer.old ≡ length_of_image (counts_of code.now cells.now) }
    ensures after { buffer.new ≡ take 8 buffer.old ++ flat_map entry_bytes (entries code.now cells.now) }
    ensures fits { EntriesFit (entries code.now cells.now) }
{
    let entries = code
        .iter()
        .copied()
        .chain(cells.iter().map(|cell| CodeEntry::from(*cell)));
    for (i, entry) in entries.enumerate() {
        write_entry(buffer, i, entry);
    }
}
