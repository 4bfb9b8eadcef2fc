//! The outputs of an application.

use descriptor_ring::{NumberSender, Sender};

// The senders of an application: of its calls, and of the blocks that it reclaims.
#[derive(Drop)]
pub(crate) struct AppSenders {
    pub(crate) sender: Sender,
    // The capacity of its ring in calls.
    pub(crate) capacity: u64,
    pub(crate) reclaims: NumberSender,
}
