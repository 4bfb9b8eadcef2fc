//! Replay scripts: a script as data, and the reader that parses one from a text or returns its first fault.
//!
//! [`read_script`] reads a preamble and the lines after it: tenants and policies, connections, stores, submissions, and
//! the actions of operators, clocks and engines. `specs/Lines.antt` defines the state of connections after some lines,
//! and which line is legal next; the chain of a connection is that of `engine_core`. `specs/Words.antt` defines the
//! line that words mean, `specs/LineReasons.antt` the faults of a line, and `specs/Texts.antt` which text is which script,
//! and the first fault of any other text.
//!
//! The crate depends on `mrpc_table`, `engine_core`, `script_grammar` and `policy_declarations`. Its one contract for
//! the layers above: a text is exactly one script, or has exactly one first fault, and [`read_script`] returns it. Each
//! line of a script is legal after those before it.
#![tactic(auto)]

mod body;
mod chain;
mod change;
mod connections;
mod laws;
mod limits;
mod read;
mod script;
mod short_lines;
mod store_line;

pub use laws::replay_script_or_fault;
pub use limits::{MAX_CONNECTIONS, MAX_WORK};
pub use read::read_script;
pub use script::{Script, ScriptLine, ScriptLines};
