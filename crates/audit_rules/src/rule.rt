//! The rules of legal histories.

/// A rule of legal histories.
#[derive(Clone, Copy, PartialEq, Eq)]
pub enum Rule {
    /// Calls are numbered consecutively, few enough are pending, and no more words were loaded than the limit. A call
    /// is malformed for a missing method exactly if the table lacks its method. A submission is rejected exactly if as
    /// many calls are pending as allowed.
    A,
    /// A malformed call is refused at once, and no other call is refused as malformed.
    B,
    /// The chain accepts each operation, and timestamps ascend.
    C,
    /// A note on a call is the one that the entry calls for, after those on earlier calls. A ticket that isn't below
    /// the cap is followed by its refusal.
    D,
    /// The first pending call is sent, if every entry lets it pass, in a frame of the size of its form.
    E,
    /// A refusal by an entry is the entry's answer.
    F,
    /// After a link failure, the pending calls are refused in order, and then only operations and timestamps follow.
    G,
    /// The lines of pending calls list them in order, at legal positions, and with the level and cost of held calls.
    Stands,
}
