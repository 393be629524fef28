// What users are told of a state, and the state that an end of the machine comes to.
ghost use Rattle.std.specs.Prelude.{◌≡◌, ◌<◌, Some, IfSome};
ghost use Rattle.sitting.specs.State.{state_number, state_cause, state_text};
ghost use Rattle.sitting.specs.Run.{ended};

use crate::sitting::State;
use execution::outcome::End;
use std::fmt;

impl State {
    // The number that users are told. An enum with values in some of its cases has no `as u8`.
    pub fn number(self) -> u8
        ensures answer { result ≡ state_number self }
        ensures four_bits { result < 16 }
    {
        match self {
            State::Blank => 0,
            State::Running => 1,
            State::Halted => 2,
            State::Faulted(_) => 3,
            State::Violated(_) => 4,
        }
    }

    // The number of a fault, or the cause of a violation.
    pub fn cause(self) -> Option<u8>
        ensures answer { result ≡ state_cause self }
        ensures four_bits { IfSome result (λ cause. cause < 16) }
    {
        match self {
            State::Faulted(fault) => Some(fault.number()),
            State::Violated(violation) => Some(violation.cause),
            _ => None,
        }
    }
}

impl fmt::Display for State {
    ghost output = { λ state. Some (state_text state) };

    fn fmt<W: fmt::Write>(&self, f: &mut fmt::Formatter<W>) -> fmt::Result {
        match self {
            State::Blank => write!(f, "blank"),
            State::Running => write!(f, "running"),
            State::Halted => write!(f, "halted"),
            State::Faulted(fault) => {
                let number = fault.number();
                write!(f, "fault {number}")
            }
            State::Violated(violation) => {
                let cause = violation.cause;
                write!(f, "violation {cause}")
            }
        }
    }
}

// A machine that ended leaves its sitting faulted or violated; the cause stays.
impl From<End> for State {
    ghost from_gives = { λ end state. state ≡ ended end };

    fn from(end: End) -> State {
        match end {
            End::Faulted(fault) => State::Faulted(fault),
            End::Violated(violation) => State::Violated(violation),
        }
    }
}
