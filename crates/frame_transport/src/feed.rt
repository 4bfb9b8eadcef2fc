//! Splits a stream that comes in pieces into frames.

ghost use Rattle.std.specs.Prelude.{◌≡◌, ◌+◌, ◌<◌, ◌^◌, ◌++◌, ◌↔◌, ◌⊎◌, [], length, IsNone, OnOk, IfErr, IfNone, IfSome, IsErrOf, List, Some, None, slice_get, ℕ};

use crate::advance::advance_by;
use crate::fault::FeedFault;
use crate::format::{Frame, HEADER_LEN};
use crate::header::fault_in;
use std::alloc::Global;
use std::collections::VecDeque;
use std::marker::Model;

/// Takes a stream in pieces, and gives its frames one by one.
///
/// Contracts see the part of the stream after the frames that were taken: its offset, its bytes, and how many more
/// bytes were fed and not kept. Bytes are dropped only past the first fault, since they never become frames; they are
/// just counted. Each byte of a payload is copied at most twice, and the time is linear in the bytes fed, however they
/// are split into pieces.
#[derive(Drop)]
pub struct Feed {
    alloc: Global,
    // The whole frames that weren't taken yet, the oldest first.
    waiting: VecDeque<Frame>,
    // The bytes of the partial frame after them; with a fault, at least the bytes up to it.
    begun: Vec<u8>,
    // The offset after the frames that were taken.
    taken: u64,
    // The offset of the first byte of `begun`.
    end: u64,
    // How many bytes were fed after those of `begun`, if it has a fault.
    behind: u64,
}

impl Model for Feed {
    ghost use Rattle.std.specs.Prelude.{◌++◌};
    ghost use Rattle.frame_transport.specs.Feed.{FeedState};
    ghost use Rattle.frame_transport.specs.Frames.{concat_frames};
    ghost use Rattle.frame_transport.specs.Kept.{IsFeedState};

    ghost Value = { FeedState };

    ghost view = { λ f. record {
      place = f.taken;
      bytes = concat_frames f.waiting.items ++ f.begun.items;
      behind = f.behind;
    } };

    ghost invariant = { λ f. IsFeedState f.taken f.waiting.items f.end f.begun.items f.behind };
}

impl Feed {
    ghost use Rattle.frame_transport.specs.Feed.{FeedState, total_fed, IsNextFrame, IsFedBy, HasStoppedAt};
    ghost use Rattle.frame_transport.specs.Frames.{HasFaultSoFar, IsPartial, IsSplitOf};
    ghost use Rattle.frame_transport.specs.declared.format.Frame.{Frame};

    /// An empty stream. It allocates nothing.
    pub fn new(alloc: Global) -> Feed
        ensures { result ≡ record { place = 0; bytes = []; behind = 0 } }
    {
        Feed {
            alloc,
            waiting: VecDeque::new(alloc),
            begun: Vec::new(alloc),
            taken: 0,
            end: 0,
            behind: 0,
        }
    }

    /// Feeds the next piece of the stream. A stream has fewer than 2^63 bytes. Returns the first fault of the stream as
    /// soon as its field is complete, and again for each later piece. The frames before the fault can still be taken.
    /// `Memory` leaves the feed unchanged.
    pub fn feed(&mut self, piece: &[u8]) -> Result<(), FeedFault>
        requires { total_fed self.old + length piece.now < 2 ^ 63 }

        // The piece is appended, and the stream has no fault so far.
        ensures ok { OnOk result (IsFedBy self.old piece.now self.new) }
        ensures clean { OnOk result (HasFaultSoFar self.old.place (self.old.bytes ++ piece.now) None) }

        // The fault is the first one of the stream with this piece.
        ensures fault { IfErr result (λ fault. (fault ≡ FeedFault.Memory)
            ⊎ HasFaultSoFar self.old.place (self.old.bytes ++ piece.now) (Some fault)) }
        ensures stops { IfErr result (λ fault. (fault ≡ FeedFault.Memory) ⊎ HasStoppedAt self.old piece.now fault self.new) }
        ensures again { (fault : FeedFault) → HasFaultSoFar self.old.place self.old.bytes (Some fault) → result ≡ Err fault }

        ensures memory { IsErrOf result FeedFault.Memory → self.new ≡ self.old }
    {
        let end = self.end;
        if let Some(fault) = fault_in(end, &self.begun) {
            self.behind += piece.len() as u64;
            return Err(fault);
        }
        let went = advance_by(self.alloc, end, &mut self.waiting, &mut self.begun, piece)?;
        self.end = went.end;
        self.behind += went.dropped as u64;
        if let Some(fault) = went.fault {
            return Err(fault);
        }
        Ok(())
    }

    /// Takes the next frame of the stream; `None` if no whole frame remains. It allocates nothing.
    pub fn next(&mut self) -> Option<Frame>
        ensures none { IsNone result ↔ IsPartial self.old.bytes }
        ensures same { IfNone result (self.new ≡ self.old) }
        ensures frame { IfSome result (λ frame. IsNextFrame self.old frame self.new) }
    {
        let frame = self.waiting.pop_front()?;
        self.taken += (HEADER_LEN + frame.payload.len()) as u64;
        Some(frame)
    }

    /// The whole frame at index `i`, from 0, among those that weren't taken yet; `None` if there is none. It stays.
    pub fn peek(&self, i: usize) -> Option<&Frame>
        ensures some { IfSome result (λ frame. (frames : List Frame) (rest : List ℕ)
            → IsSplitOf self.now.place self.now.bytes frames rest → slice_get frames i ≡ Some frame.now) }
        ensures none { IfNone result ((frames : List Frame) (rest : List ℕ)
            → IsSplitOf self.now.place self.now.bytes frames rest → slice_get frames i ≡ None) }
    {
        self.waiting.get(i)
    }

    /// How many bytes were fed after the last whole frame.
    pub fn partial_len(&self) -> u64
        ensures { (frames : List Frame) (rest : List ℕ) → IsSplitOf self.now.place self.now.bytes frames rest
            → result ≡ length rest + self.now.behind }
    {
        self.begun.len() as u64 + self.behind
    }

    /// How many bytes were fed after the frames that were taken.
    pub fn rest(&self) -> u64
        ensures { result ≡ length self.now.bytes + self.now.behind }
    {
        self.fed() - self.taken
    }

    /// How many bytes were fed.
    pub fn fed(&self) -> u64
        ensures count { result ≡ total_fed self.now }
        ensures room { result < 2 ^ 63 }
    {
        self.end + self.begun.len() as u64 + self.behind
    }
}
