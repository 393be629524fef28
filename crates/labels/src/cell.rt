// Words, tags and cells: what the machine computes with, what marks it, and the two together.

// What the machine computes with.
#[derive(Clone, Copy, PartialEq, Eq, Default)]
pub struct Word(pub u32);

// What marks a word, the pc or an instruction; a label where the order at hand says so.
#[derive(Clone, Copy, PartialEq, Eq, Default)]
pub struct Tag(pub u16);

// A word with its tag: a register, a memory cell or an output.
#[derive(Clone, Copy, PartialEq, Eq, Default)]
pub struct Cell {
    pub word: Word,
    pub tag: Tag,
}
