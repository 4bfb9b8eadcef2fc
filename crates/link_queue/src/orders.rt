//! The sentinels between frames on their way to a writer, and between bytes on their way back.

// What a writer is asked to do besides forwarding frames.
#[derive(Drop)]
pub(crate) enum Order {
    // Shut the sending side of the inner link down.
    Finish,
    // End the writer.
    Close,
}

// What a writer reports besides the received bytes.
#[derive(Drop)]
pub(crate) enum News {
    // The inner link returned the end of the stream.
    End,
    // The inner link failed.
    Failed,
    // Out of memory.
    Memory,
}

/// The health of an inner link.
#[derive(Clone, Copy, PartialEq, Eq)]
pub enum Health {
    /// It hasn't failed, and its writer wasn't out of memory.
    Working,
    /// It failed.
    Failed,
    /// Its writer was out of memory.
    Memory,
}
