// Machine faults: why an instruction could not be carried out. Each has a number.
ghost use Rattle.std.specs.Prelude.{◌≡◌};
ghost use Rattle.machine.specs.Fault.{fault_number};

#[derive(Clone, Copy)]
pub enum Fault {
    // The pc is outside the code.
    OutsideCode = 1,
    // An instruction of no known op, with a field that must be zero and is not, or a BIN of k above 8.
    IllegalInstruction = 2,
    // A cell number that is not below the cell count.
    NoSuchCell = 3,
    // A call with all frames in use.
    FramesFull = 4,
    // A return without a frame.
    NoFrame = 5,
    // An output with the list full.
    OutputsFull = 6,
}

impl Fault {
    pub fn number(self) -> u8
        ensures { result ≡ fault_number self }
    {
        self as u8
    }
}
