// A run: steps until the machine halts or ends, or until the budget is used.
ghost use Rattle.std.specs.Prelude.{◌≡◌, Ok, Err, IfOk, IfErr};
ghost use Rattle.rules.specs.Book.{Book};
ghost use Rattle.machine.specs.Effect.{state_of};
ghost use Rattle.execution.specs.Run.{RunsTo, ran, run_by};
ghost use Rattle.execution.specs.RunLaws.{RunLaws};

use crate::code::Code;
use crate::outcome::End;
use crate::step::step;
use labels::cell::Cell;
use machine::machine::Machine;
use machine::progress::Progress;
use rules::engine::Engine;

// What the run comes to, and how many steps were granted, also where it comes to an end. The cells and outputs are the two
// lists that every caller lends; a struct of both would be taken apart again at each step.
pub fn run<E: Engine>(
    machine: &mut Machine,
    engine: &mut E,
    code: &Code,
    cells: &mut [Cell],
    outputs: &mut [Cell],
    budget: u32,
) -> (Result<Progress, End>, u32)
    ensures runs { RunsTo E.answers code.now budget (state_of machine.old cells.old outputs.old) engine.old result.0 result.1 (state_of machine.new cells.new outputs.new) engine.new }
    ensures by_book { (book : Book) → E.means engine.old book → (ran result.0 result.1 (state_of machine.new cells.new outputs.new) ≡ run_by book code.now budget (state_of machine.old cells.old outputs.old)) × E.means engine.new book }
    ensures laws { RunLaws E.answers }
{
    match take_steps(machine, engine, code, cells, outputs, budget) {
        Ok((progress, granted)) => (Ok(progress), granted),
        Err((end, granted)) => (Err(end), granted),
    }
}

// The steps of a run. An end is passed up by `?`, together with how many steps were granted before it.
#[tactic(auto, using(crate::proofs::RunLoop::rest_used, crate::proofs::RunLoop::rest_halts, crate::proofs::RunLoop::rest_goes_on))]
fn take_steps<E: Engine>(
    machine: &mut Machine,
    engine: &mut E,
    code: &Code,
    cells: &mut [Cell],
    outputs: &mut [Cell],
    budget: u32,
) -> Result<(Progress, u32), (End, u32)>
    ensures stops { IfOk result (λ x. RunsTo E.answers code.now budget (state_of machine.old cells.old outputs.old) engine.old (Ok x.0) x.1 (state_of machine.new cells.new outputs.new) engine.new) }
    ensures ends { IfErr result (λ x. RunsTo E.answers code.now budget (state_of machine.old cells.old outputs.old) engine.old (Err x.0) x.1 (state_of machine.new cells.new outputs.new) engine.new) }
{
    for granted in 0..budget {
        let progress = step(machine, engine, code, cells, outputs).map_err(|end| (end, granted))?;
        if let Progress::Halts = progress {
            return Ok((Progress::Halts, granted + 1));
        }
    }
    Ok((Progress::GoesOn, budget))
}
