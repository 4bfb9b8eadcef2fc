//! Two tables whose texts are compared, under a hello of version 1.

use crate::discard;
use crate::tables::texts::table;
use mrpc_table::Name;
use schema_binding::{AgreeFault, agree};
use std::alloc::Global;
use std::process::Abort;

const TEXT: &[u8] = b"message M\nfield 1 plain uint64 a\nmethod 0 S Get M M\n";

// Like the first, with another name for the field.
const OTHER_NAME: &[u8] = b"message M\nfield 1 plain uint64 b\nmethod 0 S Get M M\n";

const MORE_METHODS: &[u8] = b"message M
field 1 plain uint64 a
method 0 S Get M M
method 1 S Put M M
";

// The offset at which the texts of two tables differ under version 1, and the byte there in each, 0 after its
// end.
fn mismatch(rt: &impl Abort, alloc: Global, ours: &[u8], theirs: &[u8]) -> (u64, u8, u8) {
    let ours = table(rt, alloc, ours);
    let theirs = table(rt, alloc, theirs);
    let service = Name::from_slice(alloc, b"S").expect(rt, "memory");
    let found = agree(alloc, &ours, &theirs, &service, 1).err();
    discard(ours);
    discard(theirs);
    match found {
        Some(AgreeFault::Mismatch { byte, ours, theirs }) => {
            (byte, ours.unwrap_or(0), theirs.unwrap_or(0))
        }
        _ => (0, 0, 0),
    }
}

#[test]
fn the_first_byte_that_differs_is_reported(rt: HostRuntime) {
    let (byte, ours, theirs) = mismatch(&rt, rt.alloc(), TEXT, OTHER_NAME);
    assert!(rt; byte == 31);
    assert!(rt; ours == 97);
    assert!(rt; theirs == 98);
}

// In a run neither text is a prefix of the other.
#[test]
fn under_version_1_the_texts_are_compared(rt: HostRuntime) {
    let (byte, ours, theirs) = mismatch(&rt, rt.alloc(), TEXT, MORE_METHODS);
    assert!(rt; byte == 52);
    assert!(rt; ours == 0);
    assert!(rt; theirs == b'm');
}
