// Decoding: the instruction that 32 bits encode, or none where they are illegal.
ghost use Rattle.std.specs.Prelude.{◌≡◌, ◌<◌, ◌≤◌, IfSome};
ghost use Rattle.instructions.specs.Instruction.{four_bits, op_of, k_of, decode, decode_fields, NamesRegisters};

use crate::instruction::Instruction;
use rules::class::Class;

// The four bits from a place on.
fn four_bits(bits: u32, at: u32) -> u8
    requires { at ≤ 28 }
    ensures answer { result ≡ four_bits at bits }
    ensures fits { result < 16 }
{
    ((bits >> at) % 16) as u8
}

// The op of an instruction, legal or not.
pub fn op_of(bits: u32) -> u8
    ensures { result ≡ op_of bits }
{
    four_bits(bits, 28)
}

// The number k of an instruction, legal or not.
pub fn k_of(bits: u32) -> u16
    ensures { result ≡ k_of bits }
{
    (bits % 65536) as u16
}

// Packed from the most significant bit on: op 4 bits, d 4, a 4, b 4, k 16.
pub fn decode(bits: u32) -> Option<Instruction>
    ensures answer { result ≡ decode bits }
    ensures names_registers { IfSome result NamesRegisters }
{
    decode_fields(
        op_of(bits),
        four_bits(bits, 24),
        four_bits(bits, 20),
        four_bits(bits, 16),
        k_of(bits),
    )
}

fn decode_fields(op: u8, d: u8, a: u8, b: u8, k: u16) -> Option<Instruction>
    requires { (d < 16) × ((a < 16) × (b < 16)) }
    ensures answer { result ≡ decode_fields op d a b k }
    ensures names_registers { IfSome result NamesRegisters }
{
    let no_d = d == 0;
    let no_a = a == 0;
    let no_b = b == 0;
    let class = match (op, k) {
        (0, 0) if no_d & no_a & no_b => Class::Nop,
        (1, _) if no_a & no_b => Class::Const,
        (2, 0) if no_b => Class::Mov,
        (3, 0..=8) => Class::Bin,
        (4, 0) if no_b => Class::Load,
        (5, 0) if no_d => Class::Store,
        (6, 0) if no_d & no_b => Class::Jump,
        (7, _) if no_d & no_b => Class::Bnz,
        (8, _) if no_d & no_a & no_b => Class::Goto,
        (9, _) if no_d & no_a & no_b => Class::Call,
        (10, 0) if no_d & no_a & no_b => Class::Ret,
        (11, 0) if no_d & no_b => Class::Out,
        (12, 0) if no_a & no_b => Class::Raise,
        (13, 0) if no_d & no_a & no_b => Class::Halt,
        _ => return None,
    };
    Some(Instruction { class, d, a, b, k })
}
