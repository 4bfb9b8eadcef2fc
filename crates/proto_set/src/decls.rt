//! Declarations, placed after other files.

ghost use Rattle.std.specs.Prelude.{◌≡◌, ℕ, ◌+◌, ◌<◌, ◌^◌, ◌++◌, All, map, IfSome, OnOk};
ghost use Rattle.proto_set.specs.declared.linked_file.FileBase.{FileBase};
ghost use Rattle.proto_set.specs.Shifted.{shift_parent, shift_message, shift_enum, shift_service, shift_head};
ghost use Rattle.proto_ast.specs.Within.{IsWordWithin};
ghost use Rattle.proto_set.specs.Placing.{room_after, CanPlaceMessage, CanPlaceEnum, CanPlaceService};

use crate::linked_file::FileBase;
use crate::shift::{Shift, shift_all};
use mrpc_table::{Memory, Sequence};
use proto_ast::{EnumDecl, FileIndices, Head, MessageDecl, ServiceDecl, Word};

// A declaration that can be placed after other files.
pub(crate) trait Placeable: Drop {
    ghost placed: { FileBase → Self → Self };

    ghost can_place: { FileBase → Self → Type 0 };

    // Places it after other files.
    fn placed(self, before: FileBase) -> Self
        requires { can_place before self }
        ensures { result ≡ placed before self };
}

// Appends declarations, each placed after other files.
pub(crate) fn append_all<T: Placeable>(
    all: &mut Sequence<T>,
    items: Sequence<T>,
    before: FileBase,
) -> Result<(), Memory>
    requires { All (T.can_place before) items }
    ensures { OnOk result (all.new ≡ all.old ++ map (T.placed before) items) }
{
    for item in items.into_vec() {
        all.push(item.placed(before))?;
    }
    Ok(())
}

// The head of a file, placed after other files.
pub(crate) fn placed_head(name: Option<Word>, sees: FileIndices, before: FileBase) -> Head
    requires { IfSome name (IsWordWithin (room_after before.bytes)) }
    ensures { result ≡ shift_head before (record { «package» = name; sees = sees }) }
{
    let package = match name {
        Some(mut word) => {
            word.shift(before.bytes);
            Some(word)
        }
        None => None,
    };
    Head { package, sees }
}

fn placed_parent(parent: Option<usize>, before: FileBase) -> Option<usize>
    requires { IfSome parent (λ i. before.messages + i < 2 ^ 64) }
    ensures { result ≡ shift_parent before parent }
{
    match parent {
        Some(i) => Some(before.messages + i),
        None => None,
    }
}

impl Placeable for MessageDecl {
    ghost placed = { shift_message };

    ghost can_place = { CanPlaceMessage };

    fn placed(self, before: FileBase) -> MessageDecl {
        let MessageDecl {
            mut name,
            file: _,
            parent,
            fields,
            oneofs,
            ranges,
            names,
        } = self;
        name.shift(before.bytes);
        MessageDecl {
            name,
            file: before.files,
            parent: placed_parent(parent, before),
            fields: shift_all(fields, before.bytes),
            oneofs: shift_all(oneofs, before.bytes),
            ranges: shift_all(ranges, before.bytes),
            names: shift_all(names, before.bytes),
        }
    }
}

impl Placeable for EnumDecl {
    ghost placed = { shift_enum };

    ghost can_place = { CanPlaceEnum };

    fn placed(self, before: FileBase) -> EnumDecl {
        let EnumDecl {
            mut name,
            file: _,
            parent,
            values,
            ranges,
            names,
        } = self;
        name.shift(before.bytes);
        EnumDecl {
            name,
            file: before.files,
            parent: placed_parent(parent, before),
            values: shift_all(values, before.bytes),
            ranges: shift_all(ranges, before.bytes),
            names: shift_all(names, before.bytes),
        }
    }
}

impl Placeable for ServiceDecl {
    ghost placed = { shift_service };

    ghost can_place = { CanPlaceService };

    fn placed(self, before: FileBase) -> ServiceDecl {
        let ServiceDecl {
            mut name,
            file: _,
            rpcs,
        } = self;
        name.shift(before.bytes);
        ServiceDecl {
            name,
            file: before.files,
            rpcs: shift_all(rpcs, before.bytes),
        }
    }
}
