//! Gates, which decide whether a worker may proceed.

ghost use Rattle.std.specs.Prelude.{IsTrue};

/// Decides whether a worker may give a connection a round. No clause restricts the decision.
pub trait Gate: Sync {
    /// Whether connection `conn` may have a round now.
    fn open(&self, conn: u32) -> bool;
}

/// A gate that is always open.
#[derive(Clone, Copy)]
pub struct OpenGate;

impl Gate for OpenGate {
    fn open(&self, _conn: u32) -> bool
        ensures { IsTrue result }
    {
        true
    }
}
