// A violation of the policy, by its cause.
ghost use Rattle.std.specs.Prelude.{◌&&◌, T, nat_le};

// Its type says that the cause is from 1 to 15. It is a plain number, since an engine may have causes of its own.
#[derive(Clone, Copy, PartialEq, Eq)]
pub struct Violation {
    pub cause: u8,
    ghost cause_fits: { T (nat_le 1 cause && nat_le cause 15) },
}
