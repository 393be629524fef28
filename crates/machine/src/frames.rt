// The frames of calls that have not returned, at most 32.
ghost use Rattle.std.specs.Prelude.{◌≡◌, ◌≤◌, reverse, length, take};

use labels::cell::Tag;

pub mod stack;

// Where to return to, and the pc tag to return with.
#[derive(Clone, Copy, Default)]
pub struct Frame {
    pub pc: u32,
    pub tag: Tag,
}

// The first slots hold the frames, the latest last. An array with its length beside it: an `ArrayVec` cannot be copied, and
// a machine can.
#[derive(Clone, Copy)]
pub struct Frames {
    slots: [Frame; 32],
    depth: usize,
    ghost depth_fits: { depth ≤ 32 },
    ghost depth_counts: { length (reverse (take depth slots)) ≡ depth },
}
