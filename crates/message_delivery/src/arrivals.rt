//! The arrivals of a connection.

ghost use Rattle.std.specs.Prelude.{◌≡◌, ◌≢◌, ◌<◌, ◌≤◌, ◌^◌, ◌⊎◌, ℕ, List, length, true, false, Option, None, OnOk, IfOk, OnErr, IsTrue};
ghost use Rattle.std.specs.Io.KnownBytes.{Appends};
ghost use Rattle.mrpc_base.specs.Failures.{HasCause};
ghost use Rattle.frame_transport.specs.Frames.{IsPartial};
ghost use Rattle.frame_transport.specs.declared.fault.FeedFault.{FeedFault as TheFault};
ghost use Rattle.receive_core.specs.ReceiverTraces.{ReceiverTrace as TheLife, Fated, after_piece, after_fates};
ghost use Rattle.message_delivery.specs.Arriving.{HasTrace, HaveSameIdentity, AreFatesOf, IsComplete, IsArrivalTrace, HasHeld, IfDelivered};

use crate::limits::MAX_ARRIVALS;
use frame_transport::FeedFault;
use mrpc_base::{Came, Link};
use mrpc_table::{Memory, Table, Tree};
use policy_access::Access;
use receive_core::{Arrival, DropCause, Inbound, trace_of_receiver};
use receive_heap::Block;
use shared_heap::Writer;

/// What became of a frame.
#[derive(Drop)]
pub enum ArrivalLine {
    /// Its message was delivered.
    Arrived {
        kind: u8,
        method: u16,
        number: u32,
        tree: Tree,
    },
    /// It was dropped.
    Dropped {
        kind: u8,
        method: u16,
        number: u32,
        why: DropCause,
    },
}

/// A message that was placed in the heap, and whose notice is pending.
#[derive(Clone, Copy)]
pub struct PlacedMessage {
    pub kind: u8,
    pub method: u16,
    pub number: u32,
    /// The address of the message in the heap.
    pub addr: u64,
    /// The number of its block.
    pub block: u64,
}

/// Whether more of a stream may arrive, or why not.
#[derive(Clone, Copy, PartialEq, Eq)]
pub enum StreamState {
    /// More may arrive.
    Open,
    /// The other side has finished.
    Ended,
    /// The stream has a frame fault.
    Cut,
    /// The link failed.
    Failed,
}

/// The state in which one thread receives the frames of a connection.
pub struct Arrivals<'t> {
    pub inbound: Inbound,
    /// The heap of the messages.
    pub writer: Writer,
    pub table: &'t Table,
    /// The policy that judges the calls of received frames, if there is one.
    pub policy: Option<&'t Access>,
    /// What became of the frames, in order.
    pub lines: Vec<ArrivalLine>,
    pub stream: StreamState,
    /// The frame fault of the stream, if it has one.
    pub fault: Option<FeedFault>,
}

// By hand, so that each drop is one call, and not a drop of every field.
impl<'t> Drop for Arrivals<'t> {
    fn drop(self) {
        let Arrivals {
            inbound: _inbound,
            writer: _writer,
            table: _,
            policy: _,
            lines: _lines,
            stream: _,
            fault: _fault,
        } = self;
    }
}

impl<'t> Arrivals<'t> {
    /// Whether nothing more is received: the stream ended, failed or is malformed, or `MAX_ARRIVALS` frames were
    /// handled.
    pub fn is_over(&self) -> bool
        ensures over { result ≡ true → (self.now.stream ≢ StreamState.Open)
            ⊎ (MAX_ARRIVALS ≤ length self.now.lines.items) }
        ensures open { result ≡ false
            → (self.now.stream ≡ StreamState.Open) × (length self.now.lines.items < MAX_ARRIVALS) }
    {
        self.stream != StreamState::Open || self.lines.len() as u64 >= MAX_ARRIVALS
    }

    /// True only if no further frame can be handled: the link failed, `MAX_ARRIVALS` frames were handled, or the
    /// stream ended or is malformed and no whole frame waits.
    pub fn is_complete(&self) -> bool
        ensures { result ≡ true → IsComplete self.now }
    {
        match self.stream {
            StreamState::Open => self.lines.len() as u64 >= MAX_ARRIVALS,
            StreamState::Ended | StreamState::Cut => {
                self.lines.len() as u64 >= MAX_ARRIVALS || self.inbound.first().is_none()
            }
            StreamState::Failed => true,
        }
    }

    /// Receives once, unless a whole frame waits or nothing more is received. Returns whether something arrived. The
    /// only error is `Memory`, which leaves the arrivals unchanged.
    pub fn receive<L: Link>(&mut self, link: &mut L, buffer: &mut [u8]) -> Result<bool, Memory>
        requires lived { HasTrace self.old }
        requires room { 0 < length buffer.old }
        requires most { length buffer.old ≤ 2 ^ 32 }

        // Their trace is extended by the received bytes, and by the first fault, if there is one.
        ensures lived { (life : TheLife) → IsArrivalTrace life self.old
            → OnOk result ((piece : List ℕ) × (fault : Option TheFault)
            × Appends (L.given link.old) (L.given link.new) piece
            × IsArrivalTrace (after_piece life piece fault) self.new) }
        ensures same { HaveSameIdentity self.old self.new }
        ensures lines { self.new.lines ≡ self.old.lines }
        ensures writer { self.new.writer ≡ self.old.writer }
        ensures heap { self.new.inbound.heap ≡ self.old.inbound.heap }

        // The stream becomes `Failed` exactly when the link's count of failures rises, and `Ended` only if the link
        // returned its end.
        ensures cause { HasCause ((self.old.stream ≢ StreamState.Failed) × (self.new.stream ≡ StreamState.Failed))
            (L.failures link.old) (L.failures link.new) }
        ensures ends { self.old.stream ≢ StreamState.Ended → self.new.stream ≡ StreamState.Ended
            → IsTrue (L.ended link.new) }

        ensures memory { OnErr result (self.new ≡ self.old) }
        ensures silent { L.given link.old ≡ None → L.given link.new ≡ None }
        ensures handed { L.handed link.new ≡ L.handed link.old }
        ensures same_link { (first : L) → L.since first link.old → L.since first link.new }
        ensures buffer { length buffer.new ≡ length buffer.old }
    {
        if self.is_over() || self.inbound.first().is_some() {
            return Ok(false);
        }
        match link.receive(buffer) {
            Came::Bytes(count) => self.feed(&buffer[..count]),
            Came::Idle => Ok(false),
            Came::End => {
                self.stream = StreamState::Ended;
                Ok(true)
            }
            Came::Failed => {
                self.stream = StreamState::Failed;
                Ok(true)
            }
            Came::Memory => Err(Memory),
        }
    }

    // Feeds the received bytes.
    fn feed(&mut self, piece: &[u8]) -> Result<bool, Memory>
        requires lived { HasTrace self.old }
        requires open { self.old.stream ≡ StreamState.Open }
        requires partial { IsPartial self.old.inbound.fed.bytes }
        requires most { length piece.now ≤ 2 ^ 32 }
        ensures lived { (life : TheLife) → IsArrivalTrace life self.old
            → OnOk result ((fault : Option TheFault) × IsArrivalTrace (after_piece life piece.now fault) self.new) }
        ensures same { HaveSameIdentity self.old self.new }
        ensures lines { self.new.lines ≡ self.old.lines }
        ensures writer { self.new.writer ≡ self.old.writer }
        ensures heap { self.new.inbound.heap ≡ self.old.inbound.heap }
        ensures stream { (self.new.stream ≡ StreamState.Open) ⊎ (self.new.stream ≡ StreamState.Cut) }
        ensures memory { OnErr result (self.new ≡ self.old) }
    {
        trace_of_receiver();
        match self.inbound.bytes(piece) {
            Ok(()) => Ok(true),
            Err(fault) => match fault {
                FeedFault::Memory => Err(Memory),
                _ => {
                    self.stream = StreamState::Cut;
                    self.fault = Some(fault);
                    Ok(true)
                }
            },
        }
    }

    /// Handles the first whole frame, unless the link has failed. Returns the message if it was placed. The only
    /// error is `Memory`, after which nothing is guaranteed of the arrivals.
    pub fn turn(&mut self) -> Result<DeliveryOutcome, Memory>
        requires { HasTrace self.old }

        // Their trace is extended by the fate of the frame, after the earlier ones.
        ensures lived { (life : TheLife) → IsArrivalTrace life self.old → IfOk result (λ turned. (more : List Fated)
            × AreFatesOf turned more × IsArrivalTrace (after_fates life more) self.new) }
        ensures kind { IfOk result (λ turned. IfDelivered turned (λ d. (1 ≤ d.kind) × (d.kind ≤ 2))) }
        ensures held { IfOk result (λ turned. HasHeld turned self.old.inbound.heap.held self.new.inbound.heap.held) }
        ensures same { HaveSameIdentity self.old self.new }
        ensures stream { self.new.stream ≡ self.old.stream }
    {
        trace_of_receiver();
        if self.stream == StreamState::Failed || self.lines.len() as u64 >= MAX_ARRIVALS {
            return Ok(DeliveryOutcome::Nothing);
        }
        match self
            .inbound
            .turn(self.table, self.policy, &mut self.writer)?
        {
            Arrival::None => Ok(DeliveryOutcome::Nothing),
            Arrival::Waiting { .. } => Ok(DeliveryOutcome::Nothing),
            Arrival::Arrived {
                kind,
                method,
                number,
                block,
                tree,
            } => {
                self.lines.push(ArrivalLine::Arrived {
                    kind,
                    method,
                    number,
                    tree,
                })?;
                Ok(DeliveryOutcome::Delivered(placed_message(kind, method, number, block)))
            }
            Arrival::Dropped {
                kind,
                method,
                number,
                why,
            } => {
                self.lines.push(ArrivalLine::Dropped {
                    kind,
                    method,
                    number,
                    why,
                })?;
                Ok(DeliveryOutcome::Dropped)
            }
        }
    }
}

// The message in a block, for its notice.
fn placed_message(kind: u8, method: u16, number: u32, block: Block) -> PlacedMessage
    ensures { result ≡ record { kind = kind; method = method; number = number; addr = block.at; block = block.number } }
{
    PlacedMessage {
        kind,
        method,
        number,
        addr: block.at,
        block: block.number,
    }
}

/// The outcome of a turn.
#[derive(Clone, Copy)]
pub enum DeliveryOutcome {
    /// No frame was handled.
    Nothing,
    /// A frame was dropped.
    Dropped,
    /// A message was placed.
    Delivered(PlacedMessage),
}
