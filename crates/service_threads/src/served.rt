//! The results of a run.

use descriptor_ring::{NumberReceiver, Receiver};
use message_delivery::{Arrivals, Reclaims};
use service_loop::{Submissions, VisitAccount};
use shared_heap::{Note, Reader};

/// A connection that was bound, and served its application to the end.
pub struct BoundConn<'t> {
    /// Its calls: the connection with its history, the reader of the application's heap, and the ring that carried
    /// them.
    pub submissions: Submissions<'t>,
    /// What arrived, with a line for each handled frame.
    pub arrivals: Arrivals<'t>,
    /// The block numbers that came back, including those that named no held block.
    pub reclaims: Reclaims,
    /// Its weight and account, if rounds go by weight.
    pub share: Option<VisitAccount>,
    /// The last note of the application's heap, which has all its stores.
    pub note: Note,
    /// The application's reader of the heap of its messages.
    pub reader: Reader,
    /// The application's ends of the notice rings.
    pub notices: Receiver,
    pub blocks: NumberReceiver,
}

// Written by hand so that a drop is one call, not a drop of each field.
impl<'t> Drop for BoundConn<'t> {
    fn drop(self) {
        let BoundConn {
            submissions: _submissions,
            arrivals: _arrivals,
            reclaims: _reclaims,
            share: _,
            note: _note,
            reader: _reader,
            notices: _notices,
            blocks: _blocks,
        } = self;
    }
}
