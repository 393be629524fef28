// What is done with frames: the latest one is put on and taken off.
ghost use Rattle.std.specs.Prelude.{◌≡◌, ◌<◌, [], ◌∷◌, length, nat_lt};
ghost use Rattle.machine.specs.Frames.{frames_of, latest, earlier};

use crate::frames::{Frame, Frames};

impl Frames {
    pub(crate) fn new() -> Frames
        ensures { frames_of result ≡ [] }
    {
        Frames {
            slots: [Frame::default(); 32],
            depth: 0,
        }
    }

    pub(crate) fn has_room(&self) -> bool
        ensures { result ≡ nat_lt (length (frames_of self.now)) 32 }
    {
        self.depth < 32
    }

    pub(crate) fn latest(&self) -> Option<Frame>
        ensures { result ≡ latest (frames_of self.now) }
    {
        if self.depth == 0 {
            return None;
        }
        Some(self.slots[self.depth - 1])
    }

    pub(crate) fn push(&mut self, frame: Frame)
        requires { length (frames_of self.old) < 32 }
        ensures { frames_of self.new ≡ frame ∷ frames_of self.old }
    {
        self.slots[self.depth] = frame;
        self.depth += 1;
    }

    pub(crate) fn pop(&mut self) -> Option<Frame>
        ensures answer { result ≡ latest (frames_of self.old) }
        ensures left { frames_of self.new ≡ earlier (frames_of self.old) }
    {
        if self.depth == 0 {
            return None;
        }
        self.depth -= 1;
        Some(self.slots[self.depth])
    }
}
