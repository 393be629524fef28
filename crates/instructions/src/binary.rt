// What a binary instruction computes of two words: nine functions, and the choice among them.
ghost use Rattle.std.specs.Prelude.{◌≡◌};
ghost use Rattle.instructions.specs.Functions.{add, subtract, bits_and, bits_or, bits_xor, shift_left, shift_right, is_less, is_equal, binary};

use labels::cell::Word;

// The function of a number. The number stays plain: the k of an instruction is also that of CONST, BNZ, GOTO and CALL, so that
// an enum of the functions would need another field, for BIN alone.
pub fn binary(k: u16, a: Word, b: Word) -> Word
    ensures { result ≡ binary k a b }
{
    match k {
        0 => add(a, b),
        1 => subtract(a, b),
        2 => bits_and(a, b),
        3 => bits_or(a, b),
        4 => bits_xor(a, b),
        5 => shift_left(a, b),
        6 => shift_right(a, b),
        7 => is_less(a, b),
        _ => is_equal(a, b),
    }
}

pub fn add(a: Word, b: Word) -> Word
    ensures { result ≡ add a b }
{
    Word(a.0.wrapping_add(b.0))
}

pub fn subtract(a: Word, b: Word) -> Word
    ensures { result ≡ subtract a b }
{
    Word(a.0.wrapping_sub(b.0))
}

pub fn bits_and(a: Word, b: Word) -> Word
    ensures { result ≡ bits_and a b }
{
    Word(a.0 & b.0)
}

pub fn bits_or(a: Word, b: Word) -> Word
    ensures { result ≡ bits_or a b }
{
    Word(a.0 | b.0)
}

pub fn bits_xor(a: Word, b: Word) -> Word
    ensures { result ≡ bits_xor a b }
{
    Word(a.0 ^ b.0)
}

pub fn shift_left(a: Word, b: Word) -> Word
    ensures { result ≡ shift_left a b }
{
    Word(a.0.checked_shl(b.0).unwrap_or(0))
}

pub fn shift_right(a: Word, b: Word) -> Word
    ensures { result ≡ shift_right a b }
{
    Word(a.0.checked_shr(b.0).unwrap_or(0))
}

pub fn is_less(a: Word, b: Word) -> Word
    ensures { result ≡ is_less a b }
{
    Word(u32::from(a.0 < b.0))
}

pub fn is_equal(a: Word, b: Word) -> Word
    ensures { result ≡ is_equal a b }
{
    Word(u32::from(a.0 == b.0))
}
