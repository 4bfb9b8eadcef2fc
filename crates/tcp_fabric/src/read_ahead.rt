//! Bytes that were read from a socket before they were asked for.

ghost use Rattle.std.specs.Prelude.{◌≡◌, ◌≢◌, ◌<◌, ◌≤◌, ◌+◌, [], ◌++◌, ◌==◌, length, min, take, drop};
ghost use Rattle.mrpc_base.specs.Links.{OnNoneCame};
ghost use Rattle.tcp_fabric.specs.Link.{IsReceivedNext};

use crate::Socket;
use mrpc_base::Came;
use std::alloc::Global;
use std::marker::Model;

// How many bytes one read ahead asks for.
pub(crate) const READ_SIZE: usize = 65536;

// Contracts see the bytes that are read ahead.
#[derive(Drop)]
pub(crate) struct ReadAhead {
    room: Vec<u8>,
    // The range of the bytes that are read ahead.
    start: usize,
    end: usize,
}

impl Model for ReadAhead {
    ghost use Rattle.std.specs.Prelude.{◌≤◌, List, ℕ, drop, take, length};

    ghost Value = { List ℕ };

    ghost view = { λ r. drop r.start (take r.end r.room.items) };

    ghost invariant = { λ r. (r.start ≤ r.end) × (r.end ≤ length r.room.items) };
}

impl ReadAhead {
    pub(crate) fn new(alloc: Global) -> ReadAhead
        ensures { result ≡ [] }
    {
        ReadAhead {
            room: Vec::new(alloc),
            start: 0,
            end: 0,
        }
    }

    pub(crate) fn is_empty(&self) -> bool
        ensures { result ≡ (length self.now == 0) }
    {
        self.start == self.end
    }

    // Copies the next bytes, as many as fit, and returns how many.
    pub(crate) fn copy_to(&mut self, buf: &mut [u8]) -> usize
        ensures count { result ≡ min (length buf.old) (length self.old) }
        ensures next { self.old ≡ take result buf.new ++ self.new }
    {
        let count = buf.len().min(self.end - self.start);
        let after = self.start + count;
        buf[..count].copy_from_slice(&self.room[self.start..after]);
        self.start = after;
        count
    }

    // Reads from the socket once. Allocates first, so that no byte is lost when out of memory.
    pub(crate) fn read_from<S: Socket>(&mut self, socket: &mut S) -> Came
        ensures kept { OnNoneCame result (self.new ≡ self.old) }
        ensures came { IsReceivedNext [] (S.given socket.old) self.old (S.given socket.new) self.new }
        ensures same_taken { S.taken socket.new ≡ S.taken socket.old }
    {
        self.make_room();
        let after = self.end + READ_SIZE;
        if self.room.len() < after {
            return Came::Memory;
        }
        let came = socket.read(&mut self.room[self.end..after]);
        if let Came::Bytes(count) = came {
            self.end += count;
        }
        came
    }

    // Makes room for a read after the bytes that are read ahead, unless out of memory.
    fn make_room(&mut self)
        ensures { self.new ≡ self.old }
    {
        self.compact();
        let after = self.end + READ_SIZE;
        if self.room.len() < after {
            let _ = self.room.resize(after, 0);
        }
    }

    // Moves the bytes that are read ahead to the start, once they are no more than those consumed before them. So
    // moving costs no more than consuming did.
    fn compact(&mut self)
        ensures { self.new ≡ self.old }
    {
        let waiting = self.end - self.start;
        if self.start > 0 && waiting <= self.start {
            self.room.truncate(self.end);
            self.room.rotate_left(self.start);
            self.start = 0;
            self.end = waiting;
        }
    }
}
