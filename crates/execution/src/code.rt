// The code that a machine runs: so many entries behind the header of an image.
ghost use Rattle.std.specs.Prelude.{◌≡◌, ◌<◌, OnSome};
ghost use Rattle.execution.specs.Step.{HasCode, code_entries, entry_at};

use image::entry::{CodeEntry, read_code};
use std::marker::Model;

// Contracts see the list of its entries.
#[derive(Drop)]
pub struct Code<'a> {
    image: &'a [u8],
    count: u16,
}

impl<'a> Model for Code<'a> {
    ghost use Rattle.std.specs.Prelude.{List};
    ghost use Rattle.image.specs.declared.entry.CodeEntry.{CodeEntry};
    ghost use Rattle.execution.specs.Step.{HasCode, code_entries};

    ghost Value = { List CodeEntry };

    ghost view = { λ c. code_entries c.image.now c.count };

    ghost invariant = { λ c. HasCode c.image.now c.count };
}

impl<'a> Code<'a> {
    // The first entries of an image that is long enough for them.
    pub fn new(image: &'a [u8], count: u16) -> Code<'a>
        requires { HasCode image.now count }
        ensures { result ≡ code_entries image.now count }
    {
        Code { image, count }
    }

    // The entry at a pc, or none outside the code.
    pub fn entry(&self, pc: u32) -> Option<CodeEntry>
        ensures entry { result ≡ entry_at self.now pc }
        ensures pc_fits { OnSome result (pc < 65536) }
    {
        if pc >= u32::from(self.count) {
            return None;
        }
        read_code(self.image, pc)
    }
}
