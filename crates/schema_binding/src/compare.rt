//! Compares two texts, two kinds, two labels and two fields.

ghost use Rattle.std.specs.Prelude.{◌≡◌, ◌<◌, ◌↔◌, length, slice_get, IsTrue, MatchOption};
ghost use Rattle.mrpc_table.specs.Text.{message_name, enum_name, kind_text, label_text};
ghost use Rattle.mrpc_table.specs.Valid.{IsKnown, IsField};
ghost use Rattle.schema_binding.specs.Agreement.{AreFirstDifferentAt, field_text};
ghost use Rattle.schema_binding.specs.Places.{IsLabel};

use mrpc_table::{Field, Kind, Label, Message, Names, Table};

// The first offset, from 0, at which two texts differ or only one has ended.
pub(crate) fn first_byte(ours: &[u8], theirs: &[u8]) -> Option<usize>
    ensures { MatchOption result (ours.now ≡ theirs.now)
        (λ at. AreFirstDifferentAt ours.now theirs.now at (slice_get ours.now at) (slice_get theirs.now at)) }
{
    let shorter = ours.len().min(theirs.len());
    for at in 0..shorter {
        if ours[at] != theirs[at] {
            return Some(at);
        }
    }
    if ours.len() == theirs.len() {
        None
    } else {
        Some(shorter)
    }
}

// Whether two messages have the same name.
pub(crate) fn is_same_message(ours: &Table, our: u32, theirs: &Table, their: u32) -> bool
    requires our { our < length ours.now.messages }
    requires their { their < length theirs.now.messages }
    ensures { IsTrue result ↔ (message_name ours.now our ≡ message_name theirs.now their) }
{
    let our = &ours.messages.as_slice()[our as usize];
    let their = &theirs.messages.as_slice()[their as usize];
    our.name.as_slice() == their.name.as_slice()
}

fn is_same_enum(ours: &Table, our: u32, theirs: &Table, their: u32) -> bool
    requires our { our < length ours.now.enums }
    requires their { their < length theirs.now.enums }
    ensures { IsTrue result ↔ (enum_name ours.now our ≡ enum_name theirs.now their) }
{
    let our = &ours.enums.as_slice()[our as usize];
    let their = &theirs.enums.as_slice()[their as usize];
    our.name.as_slice() == their.name.as_slice()
}

// Whether the texts print two kinds alike.
fn is_same_kind(ours: &Table, our: Kind, theirs: &Table, their: Kind) -> bool
    requires our { IsKnown ours.now our }
    requires their { IsKnown theirs.now their }
    ensures { IsTrue result ↔ (kind_text ours.now our ≡ kind_text theirs.now their) }
{
    match our {
        Kind::Message(left) => match their {
            Kind::Message(right) => is_same_message(ours, left, theirs, right),
            _ => false,
        },
        Kind::Choice(left) => match their {
            Kind::Choice(right) => is_same_enum(ours, left, theirs, right),
            _ => false,
        },
        _ => our == their,
    }
}

// Whether the texts print two labels alike, a oneof by its name.
fn is_same_label(
    ours: &Table,
    our_oneofs: &Names,
    our: Label,
    theirs: &Table,
    their_oneofs: &Names,
    their: Label,
) -> bool
    requires our { IsLabel ours.now our_oneofs.now our }
    requires their { IsLabel theirs.now their_oneofs.now their }
    ensures { IsTrue result
        ↔ (label_text ours.now our_oneofs.now our ≡ label_text theirs.now their_oneofs.now their) }
{
    match our {
        Label::Map(left) => match their {
            Label::Map(right) => is_same_kind(ours, left, theirs, right),
            _ => false,
        },
        Label::Member(left) => match their {
            Label::Member(right) => {
                our_oneofs.as_slice()[left as usize].as_slice()
                    == their_oneofs.as_slice()[right as usize].as_slice()
            }
            _ => false,
        },
        _ => our == their,
    }
}

// Whether the texts print two fields alike, their numbers aside.
pub(crate) fn is_same_field(
    ours: &Table,
    our_message: &Message,
    our: &Field,
    theirs: &Table,
    their_message: &Message,
    their: &Field,
) -> bool
    requires our { IsField ours.now (length our_message.now.oneofs) our.now }
    requires their { IsField theirs.now (length their_message.now.oneofs) their.now }
    ensures { IsTrue result
        ↔ (field_text ours.now our_message.now our.now ≡ field_text theirs.now their_message.now their.now) }
{
    is_same_label(
        ours,
        &our_message.oneofs,
        our.label,
        theirs,
        &their_message.oneofs,
        their.label,
    ) && is_same_kind(ours, our.kind, theirs, their.kind)
        && our.name.as_slice() == their.name.as_slice()
}
