//! The frames that a link has sent. Only contracts read the list, and it takes no memory.
ghost use Rattle.std.specs.Prelude.{◌≡◌, List, [], ◌∷◌, ◌++◌, ℕ};
ghost use Rattle.std.specs.Borrow.{ftrue};

use std::marker::Model;

#[derive(Drop)]
pub(crate) struct HandedFrames {
    ghost frames: { List (List ℕ) },
}

impl Model for HandedFrames {
    ghost also_owns = { λ _. ftrue };
}

impl HandedFrames {
    pub(crate) fn new() -> HandedFrames
        ensures { result.frames ≡ [] }
    {
        HandedFrames {}
    }

    // The frames with one more at the end.
    pub(crate) fn with(_before: &HandedFrames, _frame: &[u8]) -> HandedFrames
        ensures { result.frames ≡ _before.now.frames ++ _frame.now ∷ [] }
    {
        HandedFrames {}
    }
}
