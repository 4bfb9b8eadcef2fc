//! A script as data.

use mrpc_table::{Name, Sequence, Table};
use policy_declarations::Declarations;

/// An action, on the connection with a number from 1 to 16.
#[derive(Drop)]
pub enum ScriptLine {
    /// Opens a connection with a heap of this many words, 4 to 65536, all 0.
    Conn {
        conn: u32,
        words: u32,
    },
    /// Stores a word in the connection's heap, at a place from 1 to below its size in words.
    Store {
        conn: u32,
        place: u32,
        value: u64,
    },
    /// Stores a word right before a load of the connection's next submission, counted from 1; after its last load if it
    /// has fewer.
    Race {
        conn: u32,
        load: u64,
        place: u32,
        value: u64,
    },
    /// Submits a call of a method, whose message is at this address of the heap. It is a request if the number is 0,
    /// otherwise a reply to the request with that number.
    Submit {
        conn: u32,
        method: u16,
        number: u32,
        addr: u64,
    },
    /// Attaches the declared policy with this index, counted from 0, at a position of the connection's chain, from 0 to
    /// its length.
    Attach {
        conn: u32,
        at: u32,
        name: Name,
        policy: usize,
    },
    /// Detaches the entry of a name from the chain.
    Detach {
        conn: u32,
        name: Name,
    },
    /// Gives the entry of a name another policy of its kind.
    Upgrade {
        conn: u32,
        name: Name,
        policy: usize,
    },
    /// Advances the clock of the connection to a timestamp in milliseconds, at most 2^53.
    Moment {
        conn: u32,
        ms: u64,
    },
    /// Gives the engine at a position of the chain, counted from 0, a turn.
    Turn {
        conn: u32,
        at: u32,
    },
    /// Sends the first call that has passed the chain, if there is one.
    Send {
        conn: u32,
    },
    /// Runs turns and sends until no call advances.
    Drain {
        conn: u32,
    },
}

/// The actions of a script, in order.
pub type ScriptLines = Sequence<ScriptLine>;

/// A parsed script.
#[derive(Drop)]
pub struct Script {
    /// The limit of words that are loaded for one call, 1 to 16384.
    pub loads: u64,
    pub table: Table,
    /// Its tenants and policies.
    pub declared: Declarations,
    pub lines: ScriptLines,
}
