// What a step checks, and what it asks: a fault, or an instruction with its query.
ghost use Rattle.std.specs.Prelude.{◌≡◌, IfOk};
ghost use Rattle.machine.specs.Effect.{state_of, Passed};
ghost use Rattle.execution.specs.Step.{question};

use crate::code::Code;
use instructions::decode::decode;
use instructions::instruction::Instruction;
use labels::cell::Cell;
use machine::fault::Fault;
use machine::machine::Machine;
use rules::engine::Engine;
use rules::query::Query;

// The faults in their order, then the question. It does not use the type of the engine: with it, each engine's step has a
// copy of its own, so that no query goes through memory.
#[tactic(auto, unfolding(crate::specs::Step::question, crate::specs::Step::instruction_of))]
pub(crate) fn question<E: Engine>(
    machine: &Machine,
    code: &Code,
    cells: &[Cell],
    outputs: &[Cell],
) -> Result<(Instruction, Query), Fault>
    ensures answer { result ≡ question code.now (state_of machine.now cells.now outputs.now) }
    ensures passed { IfOk result (λ asked. Passed asked.0 (state_of machine.now cells.now outputs.now)) }
{
    let Some(entry) = code.entry(machine.pc()) else {
        return Err(Fault::OutsideCode);
    };
    let Some(instruction) = decode(entry.bits) else {
        return Err(Fault::IllegalInstruction);
    };
    let memory = machine.memory_tag(instruction, cells, outputs)?;
    let query = machine.query(instruction, entry.tag, memory);
    Ok((instruction, query))
}
