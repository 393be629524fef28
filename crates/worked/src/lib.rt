// The worked values: what the definitions come to on examples.
#![tactic(auto)]

ghost use Rattle.std.specs.Prelude.{◌≡◌, length};
ghost use Rattle.worked.specs.Worked.{worked_values, WorkedValuesFollow};

// The length of the list in specs/; a function of its own, so that another number here is refused by its contract.
fn number_of_values() -> usize
    ensures { result ≡ length worked_values }
{
    19
}

// How many worked values there are; each follows from the definitions.
pub fn worked_values() -> usize
    ensures number { result ≡ length worked_values }
    ensures follow { WorkedValuesFollow }
{
    number_of_values()
}
