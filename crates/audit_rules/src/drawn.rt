//! A ghost list of drawn tickets. Only contracts read it, and it takes no bytes.

ghost use Rattle.std.specs.Prelude.{◌≡◌, List, [], ◌∷◌, ℕ};
ghost use Rattle.std.specs.Borrow.{ftrue};

use std::marker::Model;

// A draw in a window of a tenant.
#[derive(Clone, Copy)]
pub(crate) struct GhostDraw {
    pub tenant: u32,
    pub window: u64,
}

// The tenant and the window of each draw, latest first.
#[derive(Drop)]
pub(crate) struct DrawTrace {
    pub ghost list: { List (ℕ × ℕ) },
}

impl Model for DrawTrace {
    ghost also_owns = { λ _. ftrue };
}

impl DrawTrace {
    // No draws.
    pub(crate) fn new() -> DrawTrace
        ensures { result.list ≡ [] }
    {
        DrawTrace {}
    }

    // One more draw.
    pub(crate) fn with(_before: &DrawTrace, _draw: &GhostDraw) -> DrawTrace
        ensures { result.list ≡ (_draw.now.tenant, _draw.now.window) ∷ _before.now.list }
    {
        DrawTrace {}
    }
}
