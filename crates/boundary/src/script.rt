// Reading the script of a case: numbers, most significant byte first, and then calls.
ghost use Rattle.std.specs.Prelude.{◌+◌, ◌≤◌, ◌≡◌, length, IfSome};
ghost use Rattle.std.specs.Iterator.{at_most};

use labels::name::{OrderName, Parameters};

// One call of a script.
#[derive(Clone, Copy)]
pub(crate) enum Call {
    Open,
    Run { budget: u32 },
    Page { length: u16 },
    PeekRegister { number: u8 },
    PeekCell { number: u32 },
    Close { length: u8 },
    PageIn { name: OrderName },
    PageShorter { by: u16 },
}

// What is left to read of a script.
#[derive(Drop)]
pub(crate) struct Script<'s> {
    rest: &'s [u8],
}

impl<'s> Script<'s> {
    pub(crate) fn new(script: &'s [u8]) -> Script<'s> {
        Script { rest: script }
    }

    // The next so many bytes; none, and nothing is read, where fewer are left.
    pub(crate) fn bytes(&mut self, count: usize) -> Option<&'s [u8]> {
        self.rest.split_off(..count)
    }

    fn array<const N: usize>(&mut self) -> Option<[u8; N]>
        ensures shorter { IfSome result (λ _. length self.new.rest.now + N ≡ length self.old.rest.now) }
        ensures no_longer { length self.new.rest.now ≤ length self.old.rest.now }
    {
        let (first, rest) = self.rest.split_first_chunk()?;
        self.rest = rest;
        Some(*first)
    }

    pub(crate) fn byte(&mut self) -> Option<u8> {
        Some(u8::from_be_bytes(self.array()?))
    }

    pub(crate) fn short(&mut self) -> Option<u16> {
        Some(u16::from_be_bytes(self.array()?))
    }

    // The call that this byte begins; none where it begins no call, and where the call is cut off.
    fn call(&mut self, kind: u8) -> Option<Call>
        ensures { length self.new.rest.now ≤ length self.old.rest.now }
    {
        let call = match kind {
            0 => Call::Open,
            1 => Call::Run {
                budget: u32::from_be_bytes(self.array()?),
            },
            2 => Call::Page {
                length: u16::from_be_bytes(self.array()?),
            },
            3 => Call::PeekRegister {
                number: u8::from_be_bytes(self.array()?),
            },
            4 => Call::PeekCell {
                number: u32::from_be_bytes(self.array()?),
            },
            5 => Call::Close {
                length: u8::from_be_bytes(self.array()?),
            },
            6 => {
                let [kind, p, q] = self.array::<3>()?;
                let parameters = Parameters { p, q };
                Call::PageIn {
                    name: OrderName { kind, parameters },
                }
            }
            7 => Call::PageShorter {
                by: u16::from_be_bytes(self.array()?),
            },
            _ => return None,
        };
        Some(call)
    }
}

// The calls, up to the first that is none.
impl Iterator for Script<'_> {
    type Item = Call;

    ghost remaining = { λ s. at_most (length s.rest.now) };

    fn next(&mut self) -> Option<Call> {
        let [kind] = self.array::<1>()?;
        self.call(kind)
    }
}
