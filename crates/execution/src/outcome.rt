// How a step comes to an end without a grant.
ghost use Rattle.std.specs.Prelude.{◌≡◌};
ghost use Rattle.execution.specs.declared.outcome.End.TheVariants.{Faulted, Violated};

use machine::fault::Fault;
use rules::violation::Violation;

#[derive(Clone, Copy)]
pub enum End {
    Faulted(Fault),
    Violated(Violation),
}

impl From<Fault> for End {
    ghost from_gives = { λ f e. e ≡ Faulted f };

    fn from(value: Fault) -> End {
        End::Faulted(value)
    }
}

impl From<Violation> for End {
    ghost from_gives = { λ v e. e ≡ Violated v };

    fn from(value: Violation) -> End {
        End::Violated(value)
    }
}
