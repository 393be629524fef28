// Running a sitting.
ghost use Rattle.std.specs.Prelude.{◌≡◌, ◌+◌, ◌*◌, ◌≤◌, true, length, is_err};
ghost use Rattle.rules.specs.Book.{Book};
ghost use Rattle.sitting.specs.declared.sitting.State.TheVariants.{Running};
ghost use Rattle.sitting.specs.Sitting.{standing, in_state};
ghost use Rattle.sitting.specs.Run.{run_done, SittingRuns, sitting_run_by, state_after};

use crate::sitting::{Sitting, State};
use execution::code::Code;
use execution::outcome::End;
use execution::run::run;
use labels::cell::Cell;
use labels::refusal::Refusal;
use machine::progress::Progress;
use rules::engine::Engine;

impl Sitting {
    // Steps the machine until it ends or the budget is used, and answers how many steps were granted; or answers the
    // first refusal and changes nothing.
    pub fn run<E: Engine>(
        &mut self,
        engine: &mut E,
        budget: u32,
        image: &[u8],
        cells: &mut [Cell],
        outputs: &mut [Cell],
    ) -> Result<u32, Refusal>
        ensures runs { SittingRuns E.answers (standing self.old) image.now cells.old outputs.old budget engine.old (run_done result (standing self.new) cells.new outputs.new) engine.new }
        ensures by_book { (book : Book) → E.means engine.old book → (run_done result (standing self.new) cells.new outputs.new ≡ sitting_run_by book (standing self.old) image.now cells.old outputs.old budget) × E.means engine.new book }
        ensures unchanged_if_refused { is_err result ≡ true → self.new ≡ self.old }
    {
        let State::Running = self.state else {
            return Err(Refusal::WrongState);
        };
        if !self.lengths_fit(image, cells, outputs) {
            return Err(Refusal::WrongLength);
        }
        let code = Code::new(image, self.opening.header.counts.code);
        let (outcome, granted) = run(&mut self.machine, engine, &code, cells, outputs, budget);
        self.come_to(outcome);
        Ok(granted)
    }

    // A running sitting halts or ends as its machine did. By a rule of the project a call matches the sitting's own state
    // together with the outcome of its steps, and sets the new state in place.
    fn come_to(&mut self, outcome: Result<Progress, End>)
        requires { self.old.state ≡ Running }
        ensures { standing self.new ≡ in_state (state_after outcome) (standing self.old) }
    {
        match (self.state, outcome) {
            (State::Running, Ok(Progress::Halts)) => self.state = State::Halted,
            (State::Running, Err(end)) => self.state = State::from(end),
            _ => {}
        }
    }
}
