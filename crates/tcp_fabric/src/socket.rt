//! A socket, as a link uses it.
ghost use Rattle.std.specs.Prelude.{◌≡◌, ◌≢◌, ◌<◌, ◌≤◌, ℕ, List, Option, length, take};
ghost use Rattle.std.specs.Io.KnownBytes.{append_known};
ghost use Rattle.mrpc_base.specs.Links.{OnCame, OnNoneCame};
ghost use Rattle.tcp_fabric.specs.Sockets.{OnWritten, OnNoneWritten};

use mrpc_base::Came;

/// The result of a write to a socket.
#[derive(Clone, Copy, PartialEq, Eq)]
pub enum WriteResult {
    /// This many bytes of the piece were taken, from 1 to all.
    Took(usize),
    /// The socket has no room now.
    Full,
    /// The socket failed, and took nothing.
    Failed,
}

/// One end of a connection, whose calls never block.
pub trait Socket {
    /// The bytes that it took, if it knows them.
    ghost taken: { Self → Option (List ℕ) };

    /// The bytes that it delivered, if it knows them.
    ghost given: { Self → Option (List ℕ) };

    /// Writes as much of the piece as there is room for.
    fn write(&mut self, piece: &[u8]) -> WriteResult
        requires some { 0 < length piece.now }
        ensures count { OnWritten result (λ n. (0 < n) × (n ≤ length piece.now)) }
        ensures appended { OnWritten result (λ n.
            taken self.new ≡ append_known (taken self.old) (take n piece.now)) }
        ensures kept { OnNoneWritten result (taken self.new ≡ taken self.old) }
        ensures same_given { given self.new ≡ given self.old };

    /// Reads the next bytes into the start of `buf`. The bytes of `buf` after them are unspecified. Never allocates.
    fn read(&mut self, buf: &mut [u8]) -> Came
        requires room { 0 < length buf.old }
        ensures count { OnCame result (λ n. (0 < n) × (n ≤ length buf.old)) }
        ensures appended { OnCame result (λ n. given self.new ≡ append_known (given self.old) (take n buf.new)) }
        ensures kept { OnNoneCame result (given self.new ≡ given self.old) }
        ensures memory { result ≢ Came.Memory }
        ensures same_taken { taken self.new ≡ taken self.old };

    /// Shuts the sending side down. The peer receives the end after the bytes that were taken.
    fn shutdown(&mut self)
        ensures same_taken { taken self.new ≡ taken self.old }
        ensures same_given { given self.new ≡ given self.old };
}
