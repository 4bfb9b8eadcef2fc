//! Laws of all streams.

ghost use Rattle.link_handshake.specs.Handshake.{IsNeverBoundAndUnbound, IsCauseUnique};

use frame_transport::split_is_unique;
use schema_binding::{agreement_is_decided, hello_is_unique};

/// A law; it does nothing. On a link that hasn't failed, a connection isn't both bound and unbound, and it is
/// unbound for at most one cause.
pub fn binding_is_unique()
    ensures never_both { IsNeverBoundAndUnbound }
    ensures once { IsCauseUnique }
{
    split_is_unique();
    hello_is_unique();
    agreement_is_decided();
}
