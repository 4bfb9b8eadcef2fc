//! Messages and enums, by index.

/// A message or an enum, by its index among those of the files that are resolved together.
#[derive(Clone, Copy)]
pub enum Symbol {
    /// A message.
    Message(usize),
    /// An enum.
    Enum(usize),
}

// A message or an enum, the index of its file, and the offset where its name starts.
#[derive(Clone, Copy)]
pub(crate) struct DeclaredType {
    pub file: usize,
    pub start: usize,
    pub named: Symbol,
}
