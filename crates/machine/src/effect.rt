// What a granted instruction does.
ghost use Rattle.std.specs.Prelude.{◌≡◌, ◌+◌, ◌<◌, ◌∷◌, length};
ghost use Rattle.machine.specs.Frames.{frames_of};
ghost use Rattle.machine.specs.Machine.{held, cell};
ghost use Rattle.machine.specs.Effect.{state_of, on_to, advance, write_register, frame, with_frames, return_by, effect, progress, Passed};

use crate::frames::Frame;
use crate::machine::Machine;
use crate::progress::Progress;
use instructions::binary::binary;
use instructions::instruction::Instruction;
use labels::cell::{Cell, Tag, Word};
use rules::class::Class;
use rules::engine::Engine;

impl Machine {
    // On to a pc under the next pc tag, with one step more.
    fn go_to(&mut self, pc: u32, next: Tag)
        ensures { held self.new ≡ on_to pc next (held self.old) }
    {
        self.pc = pc;
        self.pc_tag = next;
        self.steps = self.steps.saturating_add(1);
    }

    // On to the next instruction. The pc may be any word after a JUMP, so that no invariant bounds it: that it is below 65,536
    // is known only where an instruction was found at it.
    fn advance(&mut self, next: Tag)
        requires { self.old.pc < 65536 }
        ensures { held self.new ≡ advance next (held self.old) }
    {
        self.go_to(self.pc + 1, next);
    }

    fn write_register(&mut self, d: u8, word: Word, tag: Tag, next: Tag)
        requires { (d < 16) × (self.old.pc < 65536) }
        ensures { held self.new ≡ advance next (write_register d (cell word tag) (held self.old)) }
    {
        self.registers[d as usize] = Cell { word, tag };
        self.advance(next);
    }

    // Keeps a frame for the return, and goes to the target.
    fn call(&mut self, target: u16, res: Tag, next: Tag)
        requires { (length (frames_of self.old.frames) < 32) × (self.old.pc < 65536) }
        ensures { held self.new ≡ on_to target next (with_frames (frame (self.old.pc + 1) res ∷ frames_of self.old.frames) (held self.old)) }
    {
        let pc = self.pc + 1;
        self.frames.push(Frame { pc, tag: res });
        self.go_to(target as u32, next);
    }

    // Takes the latest frame off, and goes where it says.
    fn return_to_frame(&mut self, next: Tag)
        ensures { held self.new ≡ return_by (held self.old).frames next (held self.old) }
    {
        if let Some(frame) = self.frames.pop() {
            self.go_to(frame.pc, next);
        }
    }

    // The checks of the instruction have passed. It does not use the type of the engine: with it, each engine's step has a
    // copy of its own.
    pub fn apply<E: Engine>(
        &mut self,
        instruction: Instruction,
        next: Tag,
        res: Tag,
        cells: &mut [Cell],
        outputs: &mut [Cell],
    ) -> Progress
        requires { Passed instruction (state_of self.old cells.old outputs.old) }
        ensures answer { result ≡ progress instruction.class }
        ensures effect { state_of self.new cells.new outputs.new ≡ effect instruction.class instruction next res (state_of self.old cells.old outputs.old) }
    {
        let Instruction { class, d, a, b, k } = instruction;
        let a = self.read_register(a).word;
        let b = self.read_register(b).word;
        match class {
            Class::Nop => self.advance(next),
            Class::Const => self.write_register(d, Word(k as u32), res, next),
            Class::Mov => self.write_register(d, a, res, next),
            Class::Bin => self.write_register(d, binary(k, a, b), res, next),
            Class::Load => self.write_register(d, cells[a.0 as usize].word, res, next),
            Class::Store => {
                cells[a.0 as usize] = Cell { word: b, tag: res };
                self.advance(next);
            }
            Class::Jump => self.go_to(a.0, next),
            Class::Bnz if a.0 == 0 => self.advance(next),
            Class::Bnz | Class::Goto => self.go_to(k as u32, next),
            Class::Call => self.call(k, res, next),
            Class::Ret => self.return_to_frame(next),
            Class::Out => {
                outputs[self.outputs] = Cell { word: a, tag: res };
                self.outputs += 1;
                self.advance(next);
            }
            Class::Raise => {
                let word = self.read_register(d).word;
                self.write_register(d, word, res, next);
            }
            Class::Halt => {
                self.go_to(self.pc, next);
                return Progress::Halts;
            }
        }
        Progress::GoesOn
    }
}
