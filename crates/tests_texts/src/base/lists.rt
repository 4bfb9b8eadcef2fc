//! Lists that grow.

use mrpc_table::Bytes;
use std::alloc::Global;
use std::process::Abort;

fn appended(rt: &impl Abort, alloc: Global) -> Bytes {
    let mut bytes = Bytes::with_room(alloc, 4).expect(rt, "memory");
    bytes.append(b"ab").expect(rt, "memory");
    bytes.push(b'c').expect(rt, "memory");
    bytes.append_decimal(70).expect(rt, "memory");
    bytes.append_hex(b"\x0f").expect(rt, "memory");
    Bytes::from_vec(bytes.into_vec())
}

#[test]
fn lists_keep_their_items(rt: HostRuntime) {
    let bytes = appended(&rt, rt.alloc());
    assert!(rt; bytes.as_slice() == b"abc700f".as_slice());
}
