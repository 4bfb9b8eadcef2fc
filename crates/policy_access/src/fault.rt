//! Faults in the part of a rule that selects calls.

// The reason of a fault in the part of a rule that selects calls. Each is a `RuleReason`, too.
#[derive(Clone, Copy)]
pub(crate) enum SelectorReason {
    // A malformed value.
    Word,
    // An index above 65535, or a value out of the range of its kind.
    Number,
    // A method or a field that the table doesn't have, or an OP that doesn't fit the field.
    Path,
}
