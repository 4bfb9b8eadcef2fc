//! The text of a message: a tree in the text format of Protocol Buffers, as `protoc --decode` prints it.
//!
//! Fields are in ascending order of their numbers. Each element of a repeated field and each pair of a map
//! has an entry of its own. The entries of a message are between braces, indented by two more blanks. The
//! text of an enum's value is its name, or its number if the enum has no name for it. Strings and bytes are
//! quoted, with an escape for each byte that isn't printable. Floats have six digits and doubles fifteen, or
//! nine and seventeen if fewer don't read back; subnormal floats always have nine. `specs/Entries.antt`
//! defines the whole, `specs/Numbers.antt` numbers, and `specs/Escapes.antt` strings. The time is linear in
//! the tree and the text. The crate uses `mrpc_table`, `itoa` and `ryu` for numbers, and `fast_float` to read
//! floats back. Its one contract for the layers above: what is appended is the text of the tree.
#![tactic(auto)]

mod entries;
mod enum_values;
mod escapes;
mod field_info;
mod floats;
mod layout;
mod lines;
mod numbers;

pub use entries::append_message;
