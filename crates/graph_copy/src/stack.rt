//! A stack of frames. The top frame is stored apart, so that a message without nested parts allocates nothing for it.

ghost use Rattle.std.specs.Prelude.{◌≡◌, [], ◌∷◌, ◌++◌, OnOk, IfNone, IfSome};

use crate::walk::WalkFrame;
use mrpc_table::Memory;
use std::alloc::Global;
use std::marker::Model;

// Frames. Contracts see them as a list; the last one is popped first.
#[derive(Drop)]
pub(crate) struct Stack {
    below: Vec<WalkFrame>,
    top: Option<WalkFrame>,
}

impl Model for Stack {
    ghost use Rattle.std.specs.Prelude.{List, ◌++◌};
    ghost use Rattle.graph_copy.specs.declared.walk.WalkFrame.{WalkFrame as TheFrame};
    ghost use Rattle.graph_copy.specs.Tops.{top_alone};

    ghost Value = { List TheFrame };

    ghost view = { λ s. s.below.items ++ top_alone s.top };
}

impl Stack {
    // No frames. It allocates nothing.
    pub(crate) fn new(alloc: Global) -> Stack
        ensures { result ≡ [] }
    {
        Stack {
            below: Vec::new(alloc),
            top: None,
        }
    }

    // Pushes a frame.
    pub(crate) fn push(&mut self, frame: WalkFrame) -> Result<(), Memory>
        ensures { OnOk result (self.new ≡ self.old ++ frame ∷ []) }
    {
        if let Some(top) = self.top {
            self.below.push(top)?;
        }
        self.top = Some(frame);
        Ok(())
    }

    // Pops the last frame.
    pub(crate) fn pop(&mut self) -> Option<WalkFrame>
        ensures some { IfSome result (λ frame. self.old ≡ self.new ++ frame ∷ []) }
        ensures none { IfNone result (self.old ≡ []) }
        ensures same { IfNone result (self.new ≡ []) }
    {
        if let Some(top) = self.top {
            self.top = None;
            return Some(top);
        }
        self.below.pop()
    }
}
