//! The pieces that moved in one direction, in order. Only contracts read the list; it needs no memory at run
//! time.

ghost use Rattle.std.specs.Prelude.{◌≡◌, List, [], ◌∷◌, ◌++◌, ℕ};
ghost use Rattle.std.specs.Borrow.{ftrue};

use std::marker::Model;

#[derive(Drop)]
pub(crate) struct PieceTrace {
    ghost pieces: { List (List ℕ) },
}

impl Model for PieceTrace {
    ghost also_owns = { λ _. ftrue };
}

// It owns nothing.
unsafe impl Send for PieceTrace {}

impl PieceTrace {
    pub(crate) fn new() -> PieceTrace
        ensures { result.pieces ≡ [] }
    {
        PieceTrace {}
    }

    // The pieces with one more appended.
    pub(crate) fn with(_before: &PieceTrace, _piece: &[u8]) -> PieceTrace
        ensures { result.pieces ≡ _before.now.pieces ++ _piece.now ∷ [] }
    {
        PieceTrace {}
    }
}
