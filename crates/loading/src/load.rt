// The checks of an image in their order, and the copy of its cells.
ghost use Rattle.std.specs.Prelude.{◌≡◌, ◌+◌, ◌-◌, ◌*◌, ◌/◌, ◌^◌, ◌<◌, ◌≤◌, map, length, drop, IfOk};
ghost use Rattle.std.specs.Simd.{first_chunks};
ghost use Rattle.image.specs.Entry.{entry_of_bytes, entry_cell};
ghost use Rattle.image.specs.Layout.{header_of, length_of_image};
ghost use Rattle.image.specs.Load.{answer, load_refusal, EntriesChecked, AllLabelled, tag_checked, load_answer, load_cells};

use image::entry::CodeEntry;
use image::header::{Counts, ENTRY_LENGTH, HEADER_LENGTH, Header};
use labels::cell::{Cell, Tag, Word};
use labels::order::{Order, has_name};
use labels::refusal::Refusal;

// How many entries are tested at a time.
const BLOCK: usize = 64;

// Checks an image of any bytes, copies its cells and answers its header, or answers the first refusal and changes nothing.
#[inline(always)]
pub fn load<O: Order>(order: &O, image: &[u8], cells: &mut [Cell]) -> Result<Header, Refusal>
    ensures answer { result ≡ load_answer (O.meaning order.now) image.now cells.old }
    ensures code_behind_header { IfOk result (λ h. 6 * h.counts.code ≤ length image.now - 8) }
    ensures cells_counted { IfOk result (λ h. h.counts.cells ≤ length cells.old) }
    ensures cells { cells.new ≡ load_cells (O.meaning order.now) image.now cells.old }
{
    let header = check(order, image, cells.len())?;
    let behind_code = HEADER_LENGTH + ENTRY_LENGTH * header.counts.code as usize;
    copy_cells(entries_from(image, behind_code), cells);
    Ok(header)
}

// The checks in their order.
#[inline(always)]
fn check<O: Order>(order: &O, image: &[u8], cells: usize) -> Result<Header, Refusal>
    ensures answer { result ≡ answer (load_refusal (O.meaning order.now) image.now cells) (header_of image.now) }
    ensures counted { IfOk result (λ h. (length image.now ≡ length_of_image h.counts) × (cells ≡ h.counts.cells)) }
{
    let header = Header::read(image)?;
    header.check_version()?;
    if !has_name(order, header.order) {
        return Err(Refusal::WrongOrder);
    }
    let counts = Counts::new(header.counts.code as usize, header.counts.cells as usize)?;
    if image.len() != counts.image_length() {
        return Err(Refusal::WrongImageLength);
    }
    if cells != counts.cells as usize {
        return Err(Refusal::WrongLength);
    }
    check_tag(order, header.reader, 0)?;
    check_entries(order, entries_from(image, HEADER_LENGTH), 0)?;
    Ok(header)
}

// Refused unless the tag is a label; the place is 0 for the reader's tag, and from 1 on an entry's.
pub fn check_tag<O: Order>(order: &O, tag: Tag, place: u16) -> Result<(), Refusal>
    ensures { result ≡ tag_checked (O.meaning order.now) tag place }
{
    if order.is_label(tag) {
        Ok(())
    } else {
        Err(Refusal::NotALabel { place })
    }
}

// The entries of an image, each as its bytes, from a byte on.
fn entries_from(image: &[u8], at: usize) -> &[[u8; ENTRY_LENGTH]]
    requires { at ≤ length image.now }
    ensures entries { result.now ≡ first_chunks 6 ((length image.now - at) / 6) (drop at image.now) }
    ensures len { length result.now ≡ (length image.now - at) / 6 }
{
    image[at..].as_chunks::<ENTRY_LENGTH>().0
}

// Refused unless every entry's tag is a label; the first that is none by its place, where so many entries lie before these.
// They are tested a block at a time: to stop at each would be slower, and to test all first would cost a refused image as much
// as a granted one.
#[inline(always)]
pub fn check_entries<O: Order, E: Copy + Into<CodeEntry>>(
    order: &O,
    entries: &[E],
    before: usize,
) -> Result<(), Refusal>
    requires { before + length entries.now < 2 ^ 16 }
    ensures { EntriesChecked E.converts (O.meaning order.now) before entries.now result }
{
    let mut so_far = before;
    for block in entries.chunks(BLOCK) {
        check_block(order, block, so_far)?;
        so_far += block.len();
    }
    Ok(())
}

// The same of one block. In a whole one the first tag that is no label is looked for only where there is one; a shorter one
// is not worth two ways.
fn check_block<O: Order, E: Copy + Into<CodeEntry>>(
    order: &O,
    entries: &[E],
    before: usize,
) -> Result<(), Refusal>
    requires { before + length entries.now < 2 ^ 16 }
    ensures { EntriesChecked E.converts (O.meaning order.now) before entries.now result }
{
    if entries.len() == BLOCK && all_labelled(order, entries) {
        return Ok(());
    }
    for (i, entry) in entries.iter().enumerate() {
        let entry: CodeEntry = (*entry).into();
        check_tag(order, entry.tag, (before + i + 1) as u16)?;
    }
    Ok(())
}

// Whether every entry's tag is a label. All of a block are tested, with no branch: that is faster than to stop at the first
// that is none.
fn all_labelled<O: Order, E: Copy + Into<CodeEntry>>(order: &O, entries: &[E]) -> bool
    ensures { AllLabelled E.converts (O.meaning order.now) entries.now result }
{
    let mut all = true;
    for entry in entries {
        let entry: CodeEntry = (*entry).into();
        all &= order.is_label(entry.tag);
    }
    all
}

// Copies entries into as many cells: by number, since after `iter_mut().zip(..)` a proof does not know what was written;
// field by field, since a whole cell would be written with its padding, which is slower.
fn copy_cells(entries: &[[u8; ENTRY_LENGTH]], cells: &mut [Cell])
    requires { length cells.old ≡ length entries.now }
    ensures { cells.new ≡ map (λ e. entry_cell (entry_of_bytes e)) entries.now }
{
    for (i, cell) in cells.iter_mut().enumerate() {
        let entry = CodeEntry::from(entries[i]);
        cell.word = Word(entry.bits);
        cell.tag = entry.tag;
    }
}
