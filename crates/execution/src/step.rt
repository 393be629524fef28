// One step of the machine over an engine.
ghost use Rattle.machine.specs.Effect.{state_of};
ghost use Rattle.execution.specs.Step.{StepsTo};

use crate::code::Code;
use crate::outcome::End;
use crate::question::question;
use labels::cell::Cell;
use machine::machine::Machine;
use machine::progress::Progress;
use rules::engine::Engine;

// The machine's own checks, one question to the engine, and what its verdict leads to.
pub fn step<E: Engine>(
    machine: &mut Machine,
    engine: &mut E,
    code: &Code,
    cells: &mut [Cell],
    outputs: &mut [Cell],
) -> Result<Progress, End>
    ensures { StepsTo E.answers code.now (state_of machine.old cells.old outputs.old) engine.old result (state_of machine.new cells.new outputs.new) engine.new }
{
    let (instruction, query) = question::<E>(machine, code, cells, outputs)?;
    let (next, result) = engine.ask(query)?;
    Ok(machine.apply::<E>(instruction, next, result, cells, outputs))
}
