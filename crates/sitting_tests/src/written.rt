// Images that are written and opened again, from the smallest to the largest, and writes that are refused.
use crate::shared::order;
use image::entry::{CodeEntry, read_code};
use labels::cell::{Cell, Tag, Word};
use labels::refusal::Refusal;
use sitting::sitting::Sitting;
use std::process::Abort;
use std::test::Fail;
use writing::write::write;

// A number that no image below begins with.
const MARK: u8 = 99;

const ENTRY: CodeEntry = CodeEntry {
    tag: Tag(1),
    bits: 0xd0000000,
};

const CELL: Cell = Cell {
    word: Word(7),
    tag: Tag(1),
};

// Writes an image, opens it and compares what comes back.
fn comes_back(
    rt: &impl Abort,
    code: &[CodeEntry],
    cells: &[Cell],
    buffer: &mut [u8],
    opened: &mut [Cell],
) -> Result<(), Fail> {
    let order = order()?;
    assert!(rt;
        write(&order, Tag(1), code, cells, buffer).is_ok(),
        "written"
    );
    let mut sitting = Sitting::new();
    assert!(rt; sitting.open(&order, buffer, opened, &[]).is_ok(), "opened");
    let header = sitting.header();
    assert!(rt; header.reader == Tag(1) && header.counts.code as usize == code.len());
    for (number, written) in (0..).zip(code) {
        let Some(read) = read_code(buffer, number) else {
            return Err(Fail::new("there are as many entries as were written"));
        };
        assert!(rt; read == *written, "an entry");
    }
    for (written, read) in cells.iter().zip(opened.iter()) {
        assert!(rt; *written == *read, "a cell");
    }
    Ok(())
}

// Whether a write is refused with this number and place, and leaves the buffer as it was.
fn refused(
    rt: &impl Abort,
    code: &[CodeEntry],
    cells: &[Cell],
    buffer: &mut [u8],
    number: u8,
    place: Option<u16>,
) -> Result<(), Fail> {
    buffer.fill(MARK);
    let Err(refusal) = write(&order()?, Tag(1), code, cells, buffer) else {
        return Err(Fail::new("not refused"));
    };
    assert!(rt; refusal.number() == number && refusal.place() == place);
    for byte in buffer.iter() {
        assert!(rt; *byte == MARK, "the buffer is unchanged");
    }
    Ok(())
}

#[test]
fn smallest(rt: HostRuntime) -> Result<(), Fail> {
    comes_back(&rt, &[ENTRY], &[], &mut [MARK; 14], &mut [])
}

#[test]
fn largest(rt: HostRuntime) -> Result<(), Fail> {
    let mut code = [ENTRY; 1024];
    for (i, entry) in code.iter_mut().enumerate() {
        entry.bits = (i % 1024) as u32;
    }
    let mut cells = [CELL; 4096];
    for (i, cell) in cells.iter_mut().enumerate() {
        cell.word = Word((i % 4096) as u32);
    }
    comes_back(&rt, &code, &cells, &mut [MARK; 30728], &mut [CELL; 4096])
}

#[test]
fn too_many_entries(rt: HostRuntime) -> Result<(), Fail> {
    refused(&rt, &[ENTRY; 1025], &[], &mut [MARK; 6158], 4, None)
}

#[test]
fn one_byte_short(rt: HostRuntime) -> Result<(), Fail> {
    refused(&rt, &[ENTRY], &[CELL], &mut [MARK; 19], 7, None)
}

#[test]
fn second_cell_without_a_label(rt: HostRuntime) -> Result<(), Fail> {
    let cell = Cell {
        word: Word(7),
        tag: Tag(2),
    };
    refused(&rt, &[ENTRY], &[CELL, cell], &mut [MARK; 26], 6, Some(3))
}
