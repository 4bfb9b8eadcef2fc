//! One end of a connection, as a link.
ghost use Rattle.std.specs.Prelude.{◌≡◌, ◌≢◌, ◌<◌, ◌≤◌, ◌⊎◌, [], ◌∷◌, ◌++◌, IsTrue, length, take, false};
ghost use Rattle.std.specs.Io.KnownBytes.{append_known};
ghost use Rattle.mrpc_base.specs.Failures.{HasCause, raised};
ghost use Rattle.mrpc_base.specs.Links.{OnCame, OnNoneCame, IsEmptyIfKnown};
ghost use Rattle.tcp_fabric.specs.Link.{HasSentInOrder, HasReceivedInOrder, IsReceivedNext};

use crate::Socket;
use crate::piece_trace::PieceTrace;
use crate::wire::{ReceiveState, Wire, WriteError};
use mrpc_base::{Came, Handed, Link};
use std::alloc::Global;
use std::marker::Model;
use std::sync::Wait;
use std::time::Clock;

/// The state of a link's sending side.
#[derive(Clone, Copy, PartialEq, Eq)]
pub enum SendState {
    /// It can send.
    Open,
    /// It was shut down.
    Finished,
    /// The socket failed, or a frame was written in part and the sending side was shut down after that part.
    Cut,
}

/// One end of a connection. Contracts see it as a `LinkEnd`.
///
/// A frame that doesn't fit into the socket waits for room; bytes that arrive meanwhile are read ahead. After a
/// partial write fails, it shuts the sending side down. The peer sees a truncated frame, never another frame in
/// its place.
#[derive(Drop)]
pub struct SocketLink<'r, R, S: Socket + Drop> {
    rt: &'r R,
    wire: Wire<S>,
    handed: PieceTrace,
    given: PieceTrace,
    outgoing: SendState,
    ended: bool,
    // Failed sends and receives.
    failures: u64,
    local: u16,
    peer: u16,
}

impl<'r, R, S: Socket + Drop> Model for SocketLink<'r, R, S> {
    ghost use Rattle.std.specs.Prelude.{◌≡◌, ◌≢◌, ◌++◌, IfSome};
    ghost use Rattle.std.specs.List.{concat};
    ghost use mathlib.Core.List.{IsPrefix};
    ghost use Rattle.tcp_fabric.specs.declared.link.SendState.TheVariants.{Cut};
    ghost use Rattle.tcp_fabric.specs.Link.{LinkEnd};

    ghost Value = { LinkEnd };

    ghost view = { λ l. record {
      sent = S.taken l.wire.socket;
      came = S.given l.wire.socket;
      handed = l.handed.pieces;
      outgoing = l.outgoing;
      given = concat l.given.pieces;
      waiting = l.wire.ahead;
      incoming = l.wire.incoming;
      ended = l.ended;
      failures = l.failures;
      local = l.local;
      peer = l.peer;
    } };

    ghost invariant = { λ l. IfSome (S.taken l.wire.socket) (λ bytes. IsPrefix (concat l.handed.pieces) bytes)
        × (l.outgoing ≢ Cut → IfSome (S.taken l.wire.socket) (λ bytes. bytes ≡ concat l.handed.pieces))
        × IfSome (S.given l.wire.socket) (λ bytes. bytes ≡ concat l.given.pieces ++ l.wire.ahead) };
}

impl<'r, R, S: Socket + Drop> SocketLink<'r, R, S> {
    /// The end of a new connection from the port `local` to the port `peer`.
    pub fn new(rt: &'r R, alloc: Global, socket: S, local: u16, peer: u16) -> SocketLink<'r, R, S>
        requires sent { IsEmptyIfKnown (S.taken socket) }
        requires came { IsEmptyIfKnown (S.given socket) }
        ensures sent { result.sent ≡ S.taken socket }
        ensures came { result.came ≡ S.given socket }
        ensures handed { result.handed ≡ [] }
        ensures outgoing { result.outgoing ≡ SendState.Open }
        ensures given { result.given ≡ [] }
        ensures waiting { result.waiting ≡ [] }
        ensures incoming { result.incoming ≡ ReceiveState.Open }
        ensures ended { result.ended ≡ false }
        ensures failures { result.failures ≡ 0 }
        ensures local { result.local ≡ local }
        ensures peer { result.peer ≡ peer }
    {
        SocketLink {
            rt,
            wire: Wire::new(alloc, socket),
            handed: PieceTrace::new(),
            given: PieceTrace::new(),
            outgoing: SendState::Open,
            ended: false,
            failures: 0,
            local,
            peer,
        }
    }

    /// How many sends and receives failed; saturates at 2^64 - 1.
    pub fn failures(&self) -> u64
        ensures { result ≡ self.now.failures }
    {
        self.failures
    }

    /// Its socket.
    pub fn socket(&self) -> &S
        ensures sent { S.taken result.now ≡ self.now.sent }
        ensures came { S.given result.now ≡ self.now.came }
    {
        &self.wire.socket
    }

    /// A law; it does nothing. If the socket knows its bytes, it took exactly the sent frames, or more only if a
    /// frame was truncated. The bytes that it delivered were received or are read ahead. Both are in order and once.
    pub fn is_in_order(&self)
        ensures sends { HasSentInOrder self.now }
        ensures gives { HasReceivedInOrder self.now }
    {
        let _local = self.local;
    }

    // Counts a failed send or receive.
    fn count_failure(&mut self)
        ensures failures { self.new ≡ record self.old { failures = raised self.old.failures } }
        ensures never_falls { self.old.failures ≤ self.new.failures }
    {
        self.failures = self.failures.saturating_add(1);
    }
}

impl<'r, R: Wait + Clock, S: Socket + Drop> SocketLink<'r, R, S> {
    // Writes the frame, all of it if it can.
    fn write_frame(&mut self, frame: &[u8]) -> Handed
        requires { self.old.outgoing ≡ SendState.Open }
        ensures whole { result ≡ Handed.Done → self.new.sent ≡ append_known self.old.sent frame.now }
        ensures untouched { self.new.outgoing ≢ SendState.Cut → result ≢ Handed.Done
            → self.new.sent ≡ self.old.sent }
        ensures appended { result ≡ Handed.Done → self.new.handed ≡ self.old.handed ++ frame.now ∷ [] }
        ensures kept { result ≢ Handed.Done → self.new.handed ≡ self.old.handed }
        ensures came { IsReceivedNext [] self.old.came self.old.waiting self.new.came self.new.waiting }
        ensures cut { result ≡ Handed.Failed → self.new.outgoing ≡ SendState.Cut }
        ensures open { result ≡ Handed.Done → self.new.outgoing ≡ SendState.Open }
        ensures stays { self.old.incoming ≢ ReceiveState.Open → self.new.incoming ≡ self.old.incoming }
        ensures lost { result ≡ Handed.Failed → self.new.incoming ≢ ReceiveState.Open }
        ensures same { self.new ≡ record self.old {
          sent = self.new.sent;
          came = self.new.came;
          handed = self.new.handed;
          outgoing = self.new.outgoing;
          waiting = self.new.waiting;
          incoming = self.new.incoming;
        } }
    {
        match self.wire.write_all(self.rt, frame) {
            Ok(()) => {
                self.handed = PieceTrace::with(&self.handed, frame);
                Handed::Done
            }
            Err(cut) => {
                if cut.done > 0 || cut.trouble == WriteError::Failed {
                    self.wire.shutdown();
                    self.outgoing = SendState::Cut;
                }
                match cut.trouble {
                    WriteError::Failed => Handed::Failed,
                    WriteError::Memory => Handed::Memory,
                }
            }
        }
    }
}

impl<'r, R: Wait + Clock, S: Socket + Drop> Link for SocketLink<'r, R, S> {
    ghost use Rattle.std.specs.Prelude.{◌≡◌, Some, ⊤, []};

    ghost handed = { λ l. l.handed };

    ghost given = { λ l. Some l.given };

    ghost ended = { λ l. l.ended };

    // Nothing was read ahead, and the socket delivered nothing.
    ghost nothing_ready = { λ old new. (old.waiting ≡ []) × (new.came ≡ old.came) };

    // All that the socket delivered was received.
    ghost peer_finished = { λ _ new. new.waiting ≡ [] };

    ghost failures = { λ l. l.failures };

    // The ports are the same.
    ghost since = { λ old new. (new.local ≡ old.local) × (new.peer ≡ old.peer) };

    ghost use mathlib.Core.Path.{refl};

    ghost itself = { λ _. (refl, refl) };

    // Nothing more is known after a failed send.
    ghost refused = { λ _ _ _. ⊤ };

    fn send(&mut self, frame: &[u8]) -> Handed
        // If the frame was sent, the socket took all of it. Otherwise the sending side is cut, or no byte of the
        // frame was written.
        ensures whole { result ≡ Handed.Done → self.new.sent ≡ append_known self.old.sent frame.now }
        ensures untouched { self.new.outgoing ≢ SendState.Cut → result ≢ Handed.Done
            → self.new.sent ≡ self.old.sent }
        // Once the sending side was shut down or cut, each send fails.
        ensures over { self.old.outgoing ≢ SendState.Open → result ≡ Handed.Failed }

        ensures appended { result ≡ Handed.Done → self.new.handed ≡ self.old.handed ++ frame.now ∷ [] }
        ensures kept { result ≢ Handed.Done → self.new.handed ≡ self.old.handed }

        // Bytes that arrive meanwhile are read ahead, and none is lost. After the socket failed, `receive` returns
        // the end only if the socket had reported it before.
        ensures came { IsReceivedNext [] self.old.came self.old.waiting self.new.came self.new.waiting }
        ensures stays { self.old.incoming ≢ ReceiveState.Open → self.new.incoming ≡ self.old.incoming }
        ensures lost { result ≡ Handed.Failed → self.old.outgoing ≡ SendState.Open
            → self.new.incoming ≢ ReceiveState.Open }

        // What is counted, and what is unchanged.
        ensures failures { result ≡ Handed.Failed → self.new.failures ≡ raised self.old.failures }
        ensures cause { HasCause (result ≡ Handed.Failed) self.old.failures self.new.failures }
        ensures same { self.new ≡ record self.old {
          sent = self.new.sent;
          came = self.new.came;
          handed = self.new.handed;
          outgoing = self.new.outgoing;
          waiting = self.new.waiting;
          incoming = self.new.incoming;
          failures = self.new.failures;
        } }
    {
        if self.outgoing != SendState::Open {
            self.count_failure();
            return Handed::Failed;
        }
        let handed = self.write_frame(frame);
        if handed == Handed::Failed {
            self.count_failure();
        }
        handed
    }

    fn receive(&mut self, buf: &mut [u8]) -> Came
        requires room { 0 < length buf.old }

        ensures count { OnCame result (λ n. (0 < n) × (n ≤ length buf.old)) }
        ensures memory { result ≢ Came.Memory }
        // The received bytes are those read ahead, followed by those that the socket delivered.
        ensures next { OnCame result (λ n.
            IsReceivedNext (take n buf.new) self.old.came self.old.waiting self.new.came self.new.waiting) }
        ensures appended { OnCame result (λ n. self.new.given ≡ self.old.given ++ take n buf.new) }
        // No other result comes while bytes are read ahead, and none consumes bytes.
        ensures empty { OnNoneCame result (self.old.waiting ≡ []) }
        ensures still_empty { OnNoneCame result (self.new.waiting ≡ []) }
        ensures kept { OnNoneCame result ((self.new.given ≡ self.old.given) × (self.new.came ≡ self.old.came)) }
        ensures ends { result ≡ Came.End → IsTrue self.new.ended }
        ensures same_ended { result ≢ Came.End → self.new.ended ≡ self.old.ended }
        // The end is returned only if the socket reported it, and a broken link stays broken.
        ensures closed { result ≡ Came.End → self.new.incoming ≡ ReceiveState.Closed }
        ensures broken { result ≡ Came.Failed → self.new.incoming ≡ ReceiveState.Broken }
        ensures stays { self.old.incoming ≢ ReceiveState.Open → self.new.incoming ≡ self.old.incoming }

        // What is counted, and what is unchanged.
        ensures failures { result ≡ Came.Failed → self.new.failures ≡ raised self.old.failures }
        ensures cause { HasCause (result ≡ Came.Failed) self.old.failures self.new.failures }
        ensures same { self.new ≡ record self.old {
          came = self.new.came;
          given = self.new.given;
          waiting = self.new.waiting;
          incoming = self.new.incoming;
          ended = self.new.ended;
          failures = self.new.failures;
        } }
    {
        let came = self.wire.read(buf);
        match came {
            Came::Bytes(count) => self.given = PieceTrace::with(&self.given, &buf[..count]),
            Came::End => self.ended = true,
            Came::Failed => self.count_failure(),
            Came::Idle | Came::Memory => {}
        }
        came
    }

    fn finish(&mut self)
        ensures finished { self.old.outgoing ≡ SendState.Open → self.new.outgoing ≡ SendState.Finished }
        ensures over { self.new.outgoing ≢ SendState.Open }
        ensures same { self.new ≡ record self.old { outgoing = self.new.outgoing } }
    {
        if self.outgoing == SendState::Open {
            self.wire.shutdown();
            self.outgoing = SendState::Finished;
        }
    }
}
