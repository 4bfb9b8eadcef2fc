//! A socket that is read ahead while it takes no bytes.

ghost use Rattle.std.specs.Prelude.{◌≡◌, ◌≢◌, ◌<◌, ◌≤◌, [], ◌++◌, length, take, OnOk, IfErr};
ghost use Rattle.std.specs.Io.KnownBytes.{append_known};
ghost use Rattle.mrpc_base.specs.Links.{OnCame, OnNoneCame};
ghost use Rattle.tcp_fabric.specs.Link.{IsReceivedNext};

use crate::read_ahead::ReadAhead;
use crate::{Socket, WriteResult};
use mrpc_base::Came;
use std::alloc::Global;
use std::sync::Wait;
use std::thread;
use std::time::{Clock, Duration};

/// The state of a socket's receiving side.
#[derive(Clone, Copy, PartialEq, Eq)]
pub enum ReceiveState {
    /// More may arrive.
    Open,
    /// The other side has finished, and all bytes have arrived.
    Closed,
    /// The socket failed, and nothing more arrives.
    Broken,
}

#[derive(Drop)]
pub(crate) struct Wire<S: Socket + Drop> {
    pub socket: S,
    pub ahead: ReadAhead,
    pub incoming: ReceiveState,
}

// Why not all of a piece was taken.
#[derive(Clone, Copy, PartialEq, Eq)]
pub(crate) enum WriteError {
    Failed,
    Memory,
}

// How much of a piece was written before the failure.
#[derive(Clone, Copy)]
pub(crate) struct PartialWrite {
    pub done: usize,
    pub trouble: WriteError,
}

// How many times a link that can neither write nor read yields before it sleeps.
const TURNS_AWAKE: u32 = 64;

// How long it sleeps then.
const SLEEP_MICROS: u64 = 50;

impl<S: Socket + Drop> Wire<S> {
    pub(crate) fn new(alloc: Global, socket: S) -> Wire<S>
        ensures socket { result.socket ≡ socket }
        ensures ahead { result.ahead ≡ [] }
        ensures incoming { result.incoming ≡ ReceiveState.Open }
    {
        Wire {
            socket,
            ahead: ReadAhead::new(alloc),
            incoming: ReceiveState::Open,
        }
    }

    // Writes the whole piece, and reads ahead while the socket takes nothing.
    pub(crate) fn write_all<R: Wait + Clock>(
        &mut self,
        rt: &R,
        piece: &[u8],
    ) -> Result<(), PartialWrite>
        ensures whole { OnOk result
            (S.taken self.new.socket ≡ append_known (S.taken self.old.socket) piece.now) }
        ensures part { IfErr result (λ cut. (cut.done < length piece.now)
            × (S.taken self.new.socket ≡ append_known (S.taken self.old.socket) (take cut.done piece.now))) }
        ensures came { IsReceivedNext [] (S.given self.old.socket) self.old.ahead (S.given self.new.socket)
            self.new.ahead }
        ensures stays { self.old.incoming ≢ ReceiveState.Open → self.new.incoming ≡ self.old.incoming }
        ensures lost { IfErr result (λ cut. cut.trouble ≡ WriteError.Failed → self.new.incoming ≢ ReceiveState.Open) }
    {
        let mut done = 0;
        let mut turns = 0;
        for _ in rt.forever() {
            if done == piece.len() {
                return Ok(());
            }
            match self.socket.write(&piece[done..]) {
                WriteResult::Took(count) => done += count,
                WriteResult::Full => match self.read_ahead() {
                    Came::Bytes(_) => turns = 0,
                    Came::Idle | Came::End => turns = pause(rt, turns),
                    Came::Failed => return Err(PartialWrite {
                        done,
                        trouble: WriteError::Failed,
                    }),
                    Came::Memory => return Err(PartialWrite {
                        done,
                        trouble: WriteError::Memory,
                    }),
                },
                WriteResult::Failed => {
                    self.incoming = incoming_after_failure(self.incoming);
                    return Err(PartialWrite {
                        done,
                        trouble: WriteError::Failed,
                    });
                }
            }
        }
        unreachable!()
    }

    // Reads once, and appends to the bytes that are read ahead.
    fn read_ahead(&mut self) -> Came
        ensures came { IsReceivedNext [] (S.given self.old.socket) self.old.ahead (S.given self.new.socket)
            self.new.ahead }
        ensures same_taken { S.taken self.new.socket ≡ S.taken self.old.socket }
        ensures stays { self.old.incoming ≢ ReceiveState.Open → self.new.incoming ≡ self.old.incoming }
        ensures lost { result ≡ Came.Failed → self.new.incoming ≢ ReceiveState.Open }
    {
        if self.incoming != ReceiveState::Open {
            return Came::Idle;
        }
        let came = self.ahead.read_from(&mut self.socket);
        self.incoming = incoming_after_read(came);
        came
    }

    // Returns the bytes that are read ahead first, and reads from the socket if there are none.
    pub(crate) fn read(&mut self, buf: &mut [u8]) -> Came
        requires room { 0 < length buf.old }
        ensures count { OnCame result (λ n. (0 < n) × (n ≤ length buf.old)) }
        ensures came { OnCame result (λ n. IsReceivedNext (take n buf.new)
            (S.given self.old.socket) self.old.ahead (S.given self.new.socket) self.new.ahead) }
        ensures kept { OnNoneCame result (S.given self.new.socket ≡ S.given self.old.socket) }
        ensures empty { OnNoneCame result (self.old.ahead ≡ []) }
        ensures still_empty { OnNoneCame result (self.new.ahead ≡ []) }
        ensures memory { result ≢ Came.Memory }
        ensures same_taken { S.taken self.new.socket ≡ S.taken self.old.socket }
        ensures closed { result ≡ Came.End → self.new.incoming ≡ ReceiveState.Closed }
        ensures broken { result ≡ Came.Failed → self.new.incoming ≡ ReceiveState.Broken }
        ensures stays { self.old.incoming ≢ ReceiveState.Open → self.new.incoming ≡ self.old.incoming }
    {
        if !self.ahead.is_empty() {
            return Came::Bytes(self.ahead.copy_to(buf));
        }
        match self.incoming {
            ReceiveState::Open => self.read_socket(buf),
            ReceiveState::Closed => Came::End,
            ReceiveState::Broken => Came::Failed,
        }
    }

    fn read_socket(&mut self, buf: &mut [u8]) -> Came
        requires room { 0 < length buf.old }
        ensures count { OnCame result (λ n. (0 < n) × (n ≤ length buf.old)) }
        ensures appended { OnCame result (λ n.
            S.given self.new.socket ≡ append_known (S.given self.old.socket) (take n buf.new)) }
        ensures kept { OnNoneCame result (S.given self.new.socket ≡ S.given self.old.socket) }
        ensures same_ahead { self.new.ahead ≡ self.old.ahead }
        ensures memory { result ≢ Came.Memory }
        ensures same_taken { S.taken self.new.socket ≡ S.taken self.old.socket }
        ensures closed { result ≡ Came.End → self.new.incoming ≡ ReceiveState.Closed }
        ensures broken { result ≡ Came.Failed → self.new.incoming ≡ ReceiveState.Broken }
    {
        let came = self.socket.read(buf);
        self.incoming = incoming_after_read(came);
        came
    }

    // Shuts the sending side down.
    pub(crate) fn shutdown(&mut self)
        ensures same_taken { S.taken self.new.socket ≡ S.taken self.old.socket }
        ensures same_given { S.given self.new.socket ≡ S.given self.old.socket }
        ensures same_ahead { self.new.ahead ≡ self.old.ahead }
        ensures same_incoming { self.new.incoming ≡ self.old.incoming }
    {
        self.socket.shutdown();
    }
}

// The state of the receiving side, which was open, after the result of a read.
fn incoming_after_read(came: Came) -> ReceiveState
    ensures closed { came ≡ Came.End → result ≡ ReceiveState.Closed }
    ensures broken { came ≡ Came.Failed → result ≡ ReceiveState.Broken }
{
    match came {
        Came::Bytes(_) | Came::Idle | Came::Memory => ReceiveState::Open,
        Came::End => ReceiveState::Closed,
        Came::Failed => ReceiveState::Broken,
    }
}

// The state of the receiving side after a failed write: broken, unless all bytes had arrived.
fn incoming_after_failure(incoming: ReceiveState) -> ReceiveState
    ensures stays { incoming ≢ ReceiveState.Open → result ≡ incoming }
    ensures lost { result ≢ ReceiveState.Open }
{
    match incoming {
        ReceiveState::Open => ReceiveState::Broken,
        ReceiveState::Closed => ReceiveState::Closed,
        ReceiveState::Broken => ReceiveState::Broken,
    }
}

// Yields to other threads, or sleeps after `TURNS_AWAKE` yields. Returns the number of yields so far.
fn pause<R: Clock>(rt: &R, turns: u32) -> u32 {
    if turns < TURNS_AWAKE {
        thread::yield_now();
        return turns + 1;
    }
    thread::sleep(rt, Duration::from_micros(SLEEP_MICROS));
    turns
}
