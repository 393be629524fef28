// The closing record: how a sitting stood when it was closed.
ghost use Rattle.std.specs.Prelude.{◌≡◌, true};

use labels::cell::Tag;
use labels::refusal::Refusal;
use sitting::sitting::State;

// It is owed: whoever has one must file it or strike it out. Only these two settle it, and its drop demands that it is
// settled, so a program that forgets one is refused.
pub struct ClosingRecord {
    pub(crate) state: State,
    pub(crate) pc_tag: Tag,
    pub(crate) pc: u32,
    pub(crate) steps: u32,
    pub(crate) settled: bool,
}

impl Drop for ClosingRecord {
    fn drop(self)
        requires { self.settled ≡ true }
    {
        let ClosingRecord {
            state: _,
            pc_tag: _,
            pc: _,
            steps: _,
            settled: _,
        } = self;
    }
}

// A filing that was refused: why, and the record, which is still owed.
pub struct RefusedFiling {
    pub refusal: Refusal,
    pub owed: ClosingRecord,
}

impl RefusedFiling {
    // Strikes the record out, and answers why it was not filed.
    pub fn strike(self) -> Refusal
        ensures { result ≡ self.refusal }
    {
        let RefusedFiling { refusal, owed } = self;
        owed.strike();
        refusal
    }
}
