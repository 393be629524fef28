// The classes of instructions, each with its number.
ghost use Rattle.std.specs.Prelude.{◌≡◌};
ghost use Rattle.rules.specs.Class.{class_number, HasNumber, AllInTurn};

// The place of a class in this list is its number, which is also the op that encodes it.
#[derive(Clone, Copy, PartialEq, Eq)]
pub enum Class {
    Nop,
    Const,
    Mov,
    Bin,
    Load,
    Store,
    Jump,
    Bnz,
    Goto,
    Call,
    Ret,
    Out,
    Raise,
    Halt,
}

// A number that no class has.
#[derive(Clone, Copy, PartialEq, Eq)]
pub struct UnknownClass(pub u8);

impl Class {
    pub const ALL: [Class; 14] = [
        Class::Nop,
        Class::Const,
        Class::Mov,
        Class::Bin,
        Class::Load,
        Class::Store,
        Class::Jump,
        Class::Bnz,
        Class::Goto,
        Class::Call,
        Class::Ret,
        Class::Out,
        Class::Raise,
        Class::Halt,
    ];

    // The list of all classes is promised here, since a constant has no contract.
    pub fn number(self) -> u8
        ensures value { result ≡ class_number self }
        ensures all_in_turn { AllInTurn }
    {
        self as u8
    }
}

impl TryFrom<u8> for Class {
    type Error = UnknownClass;

    ghost try_from_gives = { HasNumber };

    fn try_from(number: u8) -> Result<Self, UnknownClass> {
        match number {
            0 => Ok(Class::Nop),
            1 => Ok(Class::Const),
            2 => Ok(Class::Mov),
            3 => Ok(Class::Bin),
            4 => Ok(Class::Load),
            5 => Ok(Class::Store),
            6 => Ok(Class::Jump),
            7 => Ok(Class::Bnz),
            8 => Ok(Class::Goto),
            9 => Ok(Class::Call),
            10 => Ok(Class::Ret),
            11 => Ok(Class::Out),
            12 => Ok(Class::Raise),
            13 => Ok(Class::Halt),
            _ => Err(UnknownClass(number)),
        }
    }
}
