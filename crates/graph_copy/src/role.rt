//! The roles of the words of a graph.

ghost use Rattle.std.specs.Prelude.{◌≡◌};
ghost use Rattle.mrpc_table.specs.declared.table.Table.{Table};
ghost use Rattle.graph_form.specs.Roles.{plain_role, optional_role, slot_role};
ghost use Rattle.graph_copy.specs.Shapes.{shape_of};
ghost use Rattle.graph_copy.specs.Expected.{layout_role};

use mrpc_table::{Kind, Label};

// The role of a word. A depth is that of the message that contains the word; the root has depth 1.
#[derive(Clone, Copy)]
pub(crate) enum Role {
    // A number of the kind.
    Value(Kind),
    // A presence word: 0, or 1 if the number follows.
    Presence(Kind),
    // The length of a run.
    RunLength(Kind),
    // 0 if the run is absent, otherwise its length plus 1.
    RunPresence(Kind),
    // The address of a run of `bytes` bytes.
    RunAddress {
        kind: Kind,
        bytes: u64,
    },
    // The address of a message; 0 means absent, unless the message is needed.
    Link {
        message: u32,
        depth: u32,
        needed: bool,
    },
    // The number of elements.
    Count {
        kind: Kind,
        depth: u32,
    },
    // The address of `count` elements.
    Elements {
        kind: Kind,
        count: u64,
        depth: u32,
    },
    // The number of entries of a map.
    EntryCount {
        key: Kind,
        kind: Kind,
        depth: u32,
    },
    // The address of `count` entries.
    Entries {
        key: Kind,
        kind: Kind,
        count: u64,
        depth: u32,
    },
    // The number of the member that a oneof of the message has, or 0.
    Case {
        message: u32,
        oneof: u32,
        depth: u32,
    },
}

// How a value of a kind lies in words.
#[derive(Clone, Copy)]
pub(crate) enum ValueShape {
    // In one word.
    Number,
    // In a run of bytes.
    Run,
    // In the node of the message at this index of the table.
    Message(u32),
}

// How a value of the kind lies in words.
pub(crate) fn shape_of(kind: Kind) -> ValueShape
    ensures { result ≡ shape_of kind }
{
    match kind {
        Kind::Text | Kind::Octets => ValueShape::Run,
        Kind::Message(message) => ValueShape::Message(message),
        _ => ValueShape::Number,
    }
}

// The first word of a plain slot.
pub(crate) fn plain_role(kind: Kind, depth: u32, needed: bool) -> Role
    ensures { (T : Table) → layout_role T result ≡ plain_role kind depth needed }
{
    match shape_of(kind) {
        ValueShape::Number => Role::Value(kind),
        ValueShape::Run => Role::RunLength(kind),
        ValueShape::Message(message) => Role::Link {
            message,
            depth,
            needed,
        },
    }
}

// The first word of a slot with explicit presence.
fn optional_role(kind: Kind) -> Role
    ensures { (T : Table) → layout_role T result ≡ optional_role kind }
{
    match shape_of(kind) {
        ValueShape::Run => Role::RunPresence(kind),
        _ => Role::Presence(kind),
    }
}

// The first word of a field's slot.
pub(crate) fn slot_role(label: Label, kind: Kind, depth: u32) -> Role
    ensures { (T : Table) → layout_role T result ≡ slot_role label kind depth }
{
    match label {
        Label::Optional => optional_role(kind),
        Label::Repeated | Label::Packed => Role::Count { kind, depth },
        Label::Map(key) => Role::EntryCount { key, kind, depth },
        Label::Plain | Label::Member(_) => plain_role(kind, depth, false),
    }
}
