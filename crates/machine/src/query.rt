// What an instruction asks of an engine, or its fault where what it needs is not there.
ghost use Rattle.std.specs.Prelude.{◌≡◌, ◌<◌};
ghost use Rattle.instructions.specs.Instruction.{NamesRegisters};
ghost use Rattle.machine.specs.Machine.{held, register};
ghost use Rattle.machine.specs.Effect.{state_of, fault, memory_tag, tag_unless, query};

use crate::fault::Fault;
use crate::machine::Machine;
use instructions::instruction::Instruction;
use labels::cell::{Cell, Tag};
use rules::class::Class;
use rules::query::Query;

impl Machine {
    pub(crate) fn read_register(&self, number: u8) -> Cell
        requires { number < 16 }
        ensures { result ≡ register (held self.now) number }
    {
        self.registers[number as usize]
    }

    // The query's tag of memory, or the fault where what the instruction needs is not there.
    pub fn memory_tag(
        &self,
        instruction: Instruction,
        cells: &[Cell],
        outputs: &[Cell],
    ) -> Result<Tag, Fault>
        requires { NamesRegisters instruction }
        ensures answer { result ≡ tag_unless (fault instruction.class instruction (state_of self.now cells.now outputs.now)) (memory_tag instruction.class instruction (state_of self.now cells.now outputs.now)) }
    {
        match instruction.class {
            Class::Load | Class::Store => {
                let address = self.read_register(instruction.a).word.0 as usize;
                let cell = cells.get(address).ok_or(Fault::NoSuchCell)?;
                Ok(cell.tag)
            }
            Class::Call if !self.frames.has_room() => Err(Fault::FramesFull),
            Class::Ret => {
                let latest = self.frames.latest().ok_or(Fault::NoFrame)?;
                Ok(latest.tag)
            }
            Class::Out if self.outputs >= outputs.len() => Err(Fault::OutputsFull),
            _ => Ok(Tag(0)),
        }
    }

    pub fn query(&self, instruction: Instruction, code: Tag, memory: Tag) -> Query
        requires { NamesRegisters instruction }
        ensures { result ≡ query instruction code memory (held self.now) }
    {
        Query {
            class: instruction.class.number(),
            pc: self.pc_tag,
            instruction: code,
            d: self.read_register(instruction.d).tag,
            a: self.read_register(instruction.a).tag,
            b: self.read_register(instruction.b).tag,
            memory,
        }
    }
}
