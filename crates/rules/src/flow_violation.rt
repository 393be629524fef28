// Why the flow rules grant nothing, each reason with the cause that it is told by.
ghost use Rattle.std.specs.Prelude.{◌≡◌};
ghost use Rattle.rules.specs.Flow.{violation};
ghost use Rattle.rules.specs.FlowViolation.{violated};

use crate::class::UnknownClass;
use crate::violation::Violation;

#[derive(Clone, Copy, PartialEq, Eq)]
pub enum FlowViolation {
    // A used tag is no label.
    NotALabel = 1,
    // The condition of a register write fails.
    NoFlowToRegister = 2,
    // The condition of a memory write fails.
    NoFlowToCell = 3,
    // No class has the query's number.
    NoSuchClass = 4,
}

impl From<FlowViolation> for Violation {
    ghost from_gives = { λ reason v. v ≡ violated reason };

    fn from(reason: FlowViolation) -> Violation {
        Violation {
            cause: reason as u8,
        }
    }
}

impl From<UnknownClass> for Violation {
    ghost from_gives = { λ _ v. v ≡ violation 4 tt };

    fn from(_: UnknownClass) -> Violation {
        FlowViolation::NoSuchClass.into()
    }
}
