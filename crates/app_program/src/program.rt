//! The program of an application, as data.

use mrpc_table::Sequence;

/// The most stores of a client's program.
pub const MAX_STORES: u64 = 1_000_000;

/// The most stores of a server's program for one request.
pub const MAX_REQUEST_STORES: u64 = 1000;

/// The most lines of a program. Its input has at most as many bytes.
pub const MAX_LINES: u64 = 16_777_216;

/// One line of a program.
#[derive(Clone, Copy)]
pub enum ProgramLine {
    /// A store to the application's heap, at a place from 1 to the number of words minus 1.
    Store {
        place: u32,
        value: u64,
    },
    /// Stores the first value and then the second one at a place, `times` times.
    Spin {
        times: u32,
        place: u32,
        first: u64,
        second: u64,
    },
    /// A request of a method, whose message is at this address of the heap. Only in clients' programs.
    Submit {
        method: u16,
        addr: u64,
    },
    /// Reclaims a block, whether the application has it or not; the number is from 1 to 2^63. Only in clients'
    /// programs.
    Reclaim {
        block: u64,
    },
    /// A reply to the request that the program runs for, whose message is at this address of the heap. It is the last
    /// line of a server's program, and occurs nowhere else.
    Reply {
        addr: u64,
    },
}

/// The lines of a program, in order.
pub type Program = Sequence<ProgramLine>;
