//! Vectors of the encoding guide.

use mrpc_table::Bytes;
use wire_base::{Payload, put_varint, read_record, read_varint, unzigzag, varint_len, zigzag};

#[test]
fn varints_are_written_and_read(rt: HostRuntime) {
    let mut out = Bytes::new(rt.alloc());
    put_varint(&mut out, 150).expect(&rt, "memory");
    assert!(rt; varint_len(150) == 2);
    assert!(rt; matches!(read_varint(out.as_slice(), 0), Ok((150, 2))));
}

#[test]
fn signed_numbers_go_by_turns(rt: HostRuntime) {
    assert!(rt; zigzag(-1) == 1);
    assert!(rt; zigzag(i64::MIN) == u64::MAX);
    assert!(rt; unzigzag(4294967295) == -2147483648);
}

#[test]
fn a_record_is_read_whole(rt: HostRuntime) {
    let record = read_record(b"\x12\x07testing", 0).expect(&rt, "a record");
    assert!(rt; record.number == 2);
    assert!(rt; matches!(record.payload, Payload::Len { start: 2, end: 9 }));
    assert!(rt; record.next == 9);
}
