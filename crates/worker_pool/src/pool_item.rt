//! The result of visiting an item.

/// The result of a visit.
#[derive(Clone, Copy, PartialEq, Eq)]
pub enum VisitResult {
    /// Something was done, and there may be more to do.
    Worked,
    /// There was nothing to do.
    Idle,
    /// The item is finished. It isn't visited again.
    Over,
}

/// An item of a pool: a connection with everything that belongs to it. One worker at a time holds it by value; each
/// time it may be a different one. What a visit does isn't part of the trait but a closure that a run is given. So it
/// may call functions that require types which threads can share.
pub trait PoolItem {
    /// `since first later`: `later` is a later state of the item `first`. Every visit preserves it. It defines which
    /// parts of an item are constant, what its references show included, and how the others may change.
    ghost since: { Self → Self → Type 0 };

    /// The item is finished.
    ghost over: { Self → Type 0 };
}
