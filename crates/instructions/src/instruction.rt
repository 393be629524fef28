// An instruction: its class and its fields.

use rules::class::Class;

// The fields d, a and b name registers, and k is a number; a field that the class does not name is 0.
// They are plain numbers: a type for a register's number would put proofs into the definition of decoding.
#[derive(Clone, Copy)]
pub struct Instruction {
    pub class: Class,
    pub d: u8,
    pub a: u8,
    pub b: u8,
    pub k: u16,
}
