// The entries behind the header: code and then cells, each a tag and 32 bits.
ghost use Rattle.std.specs.Prelude.{◌≡◌};
ghost use Rattle.image.specs.Entry.{code_entry, entry_of_bytes, entry_bytes, cell_entry, entry_cell};

use crate::header::{ENTRY_LENGTH, HEADER_LENGTH};
use labels::cell::{Cell, Tag, Word};

// An instruction's raw bits, legal or not, with its tag.
#[derive(Clone, Copy, PartialEq, Eq)]
pub struct CodeEntry {
    pub tag: Tag,
    pub bits: u32,
}

impl From<[u8; ENTRY_LENGTH]> for CodeEntry {
    ghost from_gives = { λ bytes entry. entry ≡ entry_of_bytes bytes };

    fn from(bytes: [u8; ENTRY_LENGTH]) -> CodeEntry {
        let [tag_high, tag_low, first, second, third, fourth] = bytes;
        CodeEntry {
            tag: Tag(u16::from_be_bytes([tag_high, tag_low])),
            bits: u32::from_be_bytes([first, second, third, fourth]),
        }
    }
}

impl From<CodeEntry> for [u8; ENTRY_LENGTH] {
    ghost from_gives = { λ entry bytes. bytes ≡ entry_bytes entry };

    fn from(entry: CodeEntry) -> [u8; ENTRY_LENGTH] {
        let [tag_high, tag_low] = entry.tag.0.to_be_bytes();
        let [bits_0, bits_1, bits_2, bits_3] = entry.bits.to_be_bytes();
        [tag_high, tag_low, bits_0, bits_1, bits_2, bits_3]
    }
}

impl From<Cell> for CodeEntry {
    ghost from_gives = { λ cell entry. entry ≡ cell_entry cell };

    fn from(cell: Cell) -> CodeEntry {
        CodeEntry {
            tag: cell.tag,
            bits: cell.word.0,
        }
    }
}

impl From<CodeEntry> for Cell {
    ghost from_gives = { λ entry cell. cell ≡ entry_cell entry };

    fn from(entry: CodeEntry) -> Cell {
        Cell {
            word: Word(entry.bits),
            tag: entry.tag,
        }
    }
}

// The entry of this number as code, or none where the image does not have all six bytes of it.
pub fn read_code(image: &[u8], number: u32) -> Option<CodeEntry>
    ensures { result ≡ code_entry image.now number }
{
    let at = HEADER_LENGTH + ENTRY_LENGTH * number as usize;
    let bytes = image.get(at..at + ENTRY_LENGTH)?.first_chunk()?;
    Some(CodeEntry::from(*bytes))
}
