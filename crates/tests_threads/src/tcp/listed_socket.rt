//! A socket in memory with listed results.

ghost use Rattle.std.specs.Prelude.{◌≡◌, ◌≢◌, ◌<◌, ◌≤◌, ◌++◌, [], length, take};
ghost use Rattle.mrpc_base.specs.Links.{OnCame, OnNoneCame};
ghost use Rattle.tcp_fabric.specs.Sockets.{OnWritten, OnNoneWritten};

use mrpc_base::Came;
use std::alloc::Global;
use tcp_fabric::{Socket, WriteResult};

// The k-th write answers the k-th entry of `writes`, and takes no more bytes than that allows; a write past
// the end of the list takes all. Likewise the k-th read; a read past the end of the list returns as much as
// fits, and the end of the stream if nothing is left.
#[derive(Drop)]
pub(crate) struct ListedSocket {
    pub taken: Vec<u8>,
    pub given: Vec<u8>,
    pub finished: bool,
    incoming: Vec<u8>,
    writes: Vec<WriteResult>,
    reads: Vec<Came>,
    written: usize,
    read: usize,
}

impl ListedSocket {
    pub(crate) fn new(
        alloc: Global,
        incoming: Vec<u8>,
        writes: Vec<WriteResult>,
        reads: Vec<Came>,
    ) -> ListedSocket
        ensures taken { result.taken.items ≡ [] }
        ensures given { result.given.items ≡ [] }
    {
        ListedSocket {
            taken: Vec::new(alloc),
            given: Vec::new(alloc),
            finished: false,
            incoming,
            writes,
            reads,
            written: 0,
            read: 0,
        }
    }

    // Returns the next bytes, at most this many.
    fn give(&mut self, buf: &mut [u8], most: usize) -> Came
        requires room { 0 < length buf.old }
        ensures count { OnCame result (λ n. (0 < n) × (n ≤ length buf.old)) }
        ensures appended { OnCame result (λ n. self.new.given.items ≡ self.old.given.items ++ take n buf.new) }
        ensures kept { OnNoneCame result (self.new.given.items ≡ self.old.given.items) }
        ensures memory { result ≢ Came.Memory }
        ensures same_taken { self.new.taken ≡ self.old.taken }
    {
        let start = self.given.len().min(self.incoming.len());
        let left = &self.incoming[start..];
        let count = most.min(buf.len()).min(left.len());
        if count == 0 {
            return Came::End;
        }
        let bytes = &left[..count];
        if self.given.extend_from_slice(bytes).is_err() {
            return Came::Failed;
        }
        buf[..count].copy_from_slice(bytes);
        Came::Bytes(count)
    }

    // Takes the first bytes of `piece`.
    fn take(&mut self, piece: &[u8], count: usize) -> WriteResult
        requires within { count ≤ length piece.now }
        requires some { 0 < count }
        ensures count { OnWritten result (λ n. n ≡ count) }
        ensures appended { OnWritten result (λ n. self.new.taken.items ≡ self.old.taken.items ++ take n piece.now) }
        ensures kept { OnNoneWritten result (self.new.taken.items ≡ self.old.taken.items) }
        ensures same_given { self.new.given ≡ self.old.given }
    {
        match self.taken.extend_from_slice(&piece[..count]) {
            Ok(()) => WriteResult::Took(count),
            Err(_) => WriteResult::Failed,
        }
    }
}

impl Socket for ListedSocket {
    ghost use Rattle.std.specs.Prelude.{Some};

    ghost taken = { λ s. Some s.taken.items };

    ghost given = { λ s. Some s.given.items };

    fn write(&mut self, piece: &[u8]) -> WriteResult {
        let answer = self.writes.get(self.written).copied();
        self.written = self.written.saturating_add(1);
        match answer {
            Some(WriteResult::Took(most)) => self.take(piece, most.min(piece.len()).max(1)),
            Some(other) => other,
            None => self.take(piece, piece.len()),
        }
    }

    fn read(&mut self, buf: &mut [u8]) -> Came {
        let answer = self.reads.get(self.read).copied();
        self.read = self.read.saturating_add(1);
        match answer {
            Some(Came::Bytes(most)) => self.give(buf, most),
            Some(Came::Idle) => Came::Idle,
            Some(Came::End) => Came::End,
            Some(Came::Failed | Came::Memory) => Came::Failed,
            None => self.give(buf, usize::MAX),
        }
    }

    fn shutdown(&mut self) {
        self.finished = true;
    }
}
