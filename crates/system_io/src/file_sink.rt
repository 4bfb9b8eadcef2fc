//! The file of frames as a sink.

ghost use Rattle.std.specs.Prelude.{◌≡◌, ◌≢◌, ◌<◌, ◌≤◌, length, take, IfOk, IsNone, IsSome};
ghost use Rattle.std.specs.Io.KnownBytes.{Appends, Keeps};
ghost use Rattle.mrpc_base.specs.Failures.{HasCause, raised};
ghost use Rattle.mrpc_base.specs.Sinks.{OnTook};
ghost use Rattle.system_io.specs.FileSink.{file_contents, IsOpenedWith};

use crate::locking::Lock;
use crate::writing::write_once;
use mrpc_base::{Put, Sink};
use std::fs::OpenOptions;
use std::io;
use std::marker::Model;
use std::rt::Files;

// The file's name, in the current directory.
const WIRE: &str = "mrpc.wire";

/// The file `mrpc.wire` of the current directory as a sink.
///
/// The first write creates or empties the file; without a write it isn't touched. The sink then holds its lock until it
/// is dropped. If the file can't be created, locked or emptied, that write fails, and the next one tries again. The
/// sink is generic over the system's files: it reveals the contents if an open file does, and the system's files reveal
/// nothing. Contracts see a `FileSinkState`.
#[derive(Drop)]
pub struct FileSink<R: Files + Drop> {
    files: R,
    file: Option<R::File>,
    failures: u64,
}

impl<R: Files + Drop> Model for FileSink<R> {
    ghost use Rattle.system_io.specs.FileSink.{FileSinkState};

    ghost Value = { FileSinkState R.File };

    ghost view = { λ s. record { file = s.file; failures = s.failures } };
}

// Opens the file, and creates it if it doesn't exist. This doesn't empty it, since another sink may hold it.
fn open_alone<R: Files>(files: &R) -> io::Result<R::File>
where
    R::File: Lock,
    ensures { IfOk result R.File.is_locked }
{
    let file = OpenOptions::new()
        .write(true)
        .create(true)
        .open(files, WIRE)?;
    file.lock_and_empty()?;
    Ok(file)
}

impl<R: Files + Drop> FileSink<R>
where
    R::File: Lock,
{
    /// A sink before its first write, without an open file.
    pub fn new(files: R) -> Self
        ensures no_file { IsNone result.file }
        ensures failures { result.failures ≡ 0 }
    {
        FileSink {
            files,
            file: None,
            failures: 0,
        }
    }

    // Writes once to the file, and opens it first if it isn't open.
    fn write_to_file(&mut self, piece: &[u8]) -> Put
        requires some { 0 < length piece.now }

        ensures count { OnTook result (λ n. (0 < n) × (n ≤ length piece.now)) }
        ensures appended { OnTook result (λ n.
            Appends (file_contents R.File.contents self.old.file) (file_contents R.File.contents self.new.file)
            (take n piece.now)) }
        ensures kept { result ≡ Put.Failed
            → Keeps (file_contents R.File.contents self.old.file) (file_contents R.File.contents self.new.file) }
        ensures made { OnTook result (λ _. IsSome self.new.file) }
        ensures first { IsNone self.old.file
            → OnTook result (λ n. IsOpenedWith R.File.contents R.File.is_locked self.new.file (take n piece.now)) }
        ensures failures { self.new.failures ≡ self.old.failures }
    {
        if let Some(file) = &mut self.file {
            return write_once(file, piece);
        }
        match open_alone(&self.files) {
            Ok(mut file) => {
                let put = write_once(&mut file, piece);
                self.file = Some(file);
                put
            }
            Err(_) => Put::Failed,
        }
    }
}

impl<R: Files + Drop> Sink for FileSink<R>
where
    R::File: Lock,
{
    ghost written = { λ s. file_contents R.File.contents s.file };

    ghost failures = { λ s. s.failures };

    fn write(&mut self, piece: &[u8]) -> Put
        requires some { 0 < length piece.now }

        // The bytes written.
        ensures count { OnTook result (λ n. (0 < n) × (n ≤ length piece.now)) }
        ensures appended { OnTook result (λ n.
            Appends (file_contents R.File.contents self.old.file) (file_contents R.File.contents self.new.file)
            (take n piece.now)) }
        ensures kept { result ≡ Put.Failed
            → Keeps (file_contents R.File.contents self.old.file) (file_contents R.File.contents self.new.file) }
        ensures made { OnTook result (λ _. IsSome self.new.file) }
        // The file that the first write created or emptied is locked, and holds what was taken of that write.
        ensures first { IsNone self.old.file
            → OnTook result (λ n. IsOpenedWith R.File.contents R.File.is_locked self.new.file (take n piece.now)) }

        // The counts.
        ensures failures { result ≡ Put.Failed → self.new.failures ≡ raised self.old.failures }
        ensures cause { HasCause (result ≡ Put.Failed) self.old.failures self.new.failures }
    {
        let put = self.write_to_file(piece);
        if put == Put::Failed {
            self.failures = self.failures.saturating_add(1);
        }
        put
    }
}
