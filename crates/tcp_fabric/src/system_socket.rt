//! A socket of the operating system.
ghost use Rattle.std.specs.Prelude.{◌≡◌, ◌<◌, ◌≤◌, length};

use crate::{Socket, SystemFault, WriteResult};
use mrpc_base::Came;
use std::io;
use std::io::{ErrorKind, Read, Write};
use std::net::{Shutdown, TcpStream};

/// One end of a TCP connection, by the operating system. Errors of its writes and reads are noted.
#[derive(Drop)]
pub struct SystemSocket {
    stream: TcpStream,
    fault: SystemFault,
}

impl SystemSocket {
    // `stream` must be nonblocking.
    pub(crate) fn new(stream: TcpStream, fault: SystemFault) -> SystemSocket {
        SystemSocket { stream, fault }
    }
}

impl Socket for SystemSocket {
    ghost use Rattle.std.specs.Prelude.{None};

    // The system doesn't report them.
    ghost taken = { λ _. None };

    ghost given = { λ _. None };

    fn write(&mut self, piece: &[u8]) -> WriteResult {
        match Write::write(&mut self.stream, piece) {
            Ok(0) => WriteResult::Failed,
            Ok(count) => WriteResult::Took(count),
            Err(error) if would_wait(&error) => WriteResult::Full,
            Err(error) => {
                self.fault.note(&error);
                WriteResult::Failed
            }
        }
    }

    fn read(&mut self, buf: &mut [u8]) -> Came {
        match Read::read(&mut self.stream, buf) {
            Ok(0) => Came::End,
            Ok(count) => Came::Bytes(count),
            Err(error) if would_wait(&error) => Came::Idle,
            Err(error) => {
                self.fault.note(&error);
                Came::Failed
            }
        }
    }

    // A connection that is gone has no side to shut down.
    fn shutdown(&mut self) {
        let _ = self.stream.shutdown(Shutdown::Write);
    }
}

// Whether a call would block, or was interrupted.
fn would_wait(error: &io::Error) -> bool {
    matches!(error.kind(), ErrorKind::WouldBlock | ErrorKind::Interrupted)
}
