//! Tables: their text, read and written, and a tree that fits one.

ghost use Rattle.mrpc_table.specs.Valid.{IsValid};

use crate::discard;
use mrpc_table::{Bytes, Table, Tree, fits};
use std::alloc::Global;
use std::process::Abort;
use table_text::{read_table, table_fault_is_unique, table_text, table_text_is_unique};

const SMALL: &[u8] =
    b"enum E\nvalue 0 A\nmessage M\nfield 1 map:string enum:E a\nmethod 0 S Get M M\n";

pub(crate) fn table(rt: &impl Abort, alloc: Global, text: &[u8]) -> Table
    ensures { IsValid result }
{
    read_table(alloc, text).expect(rt, "a table")
}

fn is_text(rt: &impl Abort, bytes: &Bytes, expected: &[u8]) {
    assert!(rt; bytes.as_slice() == expected);
}

#[test]
fn texts_are_read_and_written(rt: HostRuntime) {
    table_text_is_unique();
    table_fault_is_unique();
    let table = table(&rt, rt.alloc(), SMALL);
    is_text(
        &rt,
        &table_text(rt.alloc(), &table).expect(&rt, "memory"),
        SMALL,
    );
    discard(table);
}

// A tree without a field fits the first message of the table.
fn is_fitting(rt: &impl Abort, alloc: Global, table: &Table)
    requires { IsValid table.now }
{
    let tree = Tree {
        fields: Vec::new(alloc),
    };
    assert!(rt; !table.messages.is_empty());
    assert!(rt; fits(&tree, table, 0));
    discard(tree);
}

#[test]
fn a_normal_tree_fits(rt: HostRuntime) {
    let table = table(&rt, rt.alloc(), b"message M\nfield 1 plain uint32 a\n");
    is_fitting(&rt, rt.alloc(), &table);
    discard(table);
}
