//! The receive path: the frames of a stream become messages in a heap that an application reads.
//!
//! Bytes are fed to an [`Inbound`] as they arrive. Each [`Inbound::turn`] takes the first whole frame: it decodes the
//! payload and judges the call by a policy. Then it places the message in a block of the heap, or drops the frame for
//! the first cause. If no hole of the heap is large enough, the frame stays first until blocks are reclaimed. A waiting
//! frame isn't decoded again but judged again, so the policy of the turn in which it arrives counts.
//!
//! `specs/Fates.antt` defines what becomes of a frame, `specs/Turns.antt` what a turn does to the receiver, and
//! `specs/ReceiverTraces.antt` the trace of a receiver and the invariant that each call preserves. The crate uses
//! `frame_transport`, `wire_decode`, `policy_access`, `graph_form`, `graph_place`, `receive_heap`, `mrpc_base`
//! and `mrpc_table`. The layers above use one contract: each frame has its fate, in order and once, however the
//! stream was cut into pieces.
#![tactic(auto)]

mod arrival;
mod decoded;
mod inbound;
mod laws;

pub use arrival::{Arrival, DropCause};
pub use inbound::Inbound;
pub use laws::{fate_is_determined, frames_in_order, trace_of_receiver};
