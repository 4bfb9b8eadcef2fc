//! Lines of runs whose peers aren't this program. Connection 1 receives prepared bytes, and connection 2
//! none.

ghost use Rattle.run_plan.specs.Plans.{IsPlan};

use crate::discard;
use crate::gates::CountingGate;
use crate::prepared::{PreparedEnd, PreparedFabric};
use crate::runs::{ONE_CALL, RunOutput, plan_of, ran};
use crate::streams::{hello_of, longest, nested, push_request};
use run_plan::Plan;
use std::alloc::Global;
use std::process::Abort;
use std::sync::Wait;
use std::thread::Threads;

// A client that calls nothing, and whose heap has no room for a message. Its schema has more fields than its peer's.
const LISTENER: &str =
    "policy = [{name = \"p\", kind = \"access\", rules = [\"rule seven deny method 0 where 1 eq 7\",\n\
    \"default allow\"]}]\n\
    app = [{conn = 1, role = \"client\", program = [], receive = 8, inbound = \"p\", schema = '''\n\
    syntax = \"proto3\"; message M { uint64 a = 1; M m = 2; string s = 3; repeated uint64 n = 4; }\n\
    service S { rpc Get (M) returns (M); }'''}, {conn = 2, role = \"echo\"}]\n\
    link = [{a = 1, b = 2}]\n";

// The lines after those of connection 1.
const REST: &[u8] = b"unbound 2 ended\ntotals 0 0 0 0\n";

fn listener(rt: &impl Abort, alloc: Global) -> Plan
    ensures { IsPlan result }
{
    plan_of(rt, alloc, "workers = 1\n", LISTENER)
}

// The report of a run in which connection 1 has this end of its link.
fn ran_with<R: Abort + Threads + Wait + Sync>(
    rt: &R,
    alloc: Global,
    plan: Plan,
    end: PreparedEnd,
) -> RunOutput
    requires { IsPlan plan }
{
    let other = PreparedEnd::giving(alloc, Vec::new(alloc));
    let fabric = PreparedFabric::new(rt, alloc, end, other);
    ran(rt, alloc, plan, fabric, &CountingGate::new())
}

// The run prints these lines for connection 1, and then `REST`.
fn assert_lines(rt: &impl Abort, alloc: Global, told: &RunOutput, lines: &[u8]) {
    let mut expected = lines.to_vec(alloc).expect(rt, "memory");
    expected.extend_from_slice(REST).expect(rt, "memory");
    assert!(rt; told.text.as_slice() == expected.as_slice());
}

// A listener with this link prints these lines, and no call of the link fails.
fn assert_report<R: Abort + Threads + Wait + Sync>(
    rt: &R,
    alloc: Global,
    end: PreparedEnd,
    lines: &[u8],
) {
    let told = ran_with(rt, alloc, listener(rt, alloc), end);
    assert!(rt; !told.failed);
    assert_lines(rt, alloc, &told, lines);
}

// Bytes that a listener receives, and the lines that it then prints.
type Row<'a> = (&'a [u8], &'a [u8]);

fn assert_reports<R: Abort + Threads + Wait + Sync>(rt: &R, alloc: Global, rows: &[Row]) {
    for (bytes, lines) in rows {
        let bytes = bytes.to_vec(alloc).expect(rt, "memory");
        assert_report(rt, alloc, PreparedEnd::giving(alloc, bytes), *lines);
    }
}

#[test]
fn what_is_no_hello_leaves_a_connection_unbound(rt: HostRuntime) {
    let rows: [Row; 10] = [
        (b"", b"unbound 1 ended\n"),
        (b"\0\0\0\x01\x03\x02", b"unbound 1 ended\n"),
        (b"\0\x04\0\x01", b"unbound 1 cut 0 TooLong\n"),
        (b"\0\0\0\0\x09", b"unbound 1 cut 4 Kind\n"),
        (b"\0\0\0\0\x03\x03", b"unbound 1 cut 5 Version\n"),
        (
            b"\0\0\0\0\x01\x01\0\0\0\0\0\x02\0\0\0\x01",
            b"unbound 1 hello 0\n",
        ),
        (
            b"\0\0\0\x01\x03\x02\0\0\0\0\0\x02\0\0\0\0S",
            b"unbound 1 hello 1\n",
        ),
        (
            b"\0\0\0\x04\x03\x02\0\0\0\0\0\x02\0\0\0\0S\nx\n",
            b"unbound 1 hello 2\n",
        ),
        (
            b"\0\0\0\x02\x03\x02\0\0\0\0\0\x02\0\0\0\09\n",
            b"unbound 1 hello 1\n",
        ),
        (
            b"\0\0\0\x23\x03\x02\0\0\0\0\0\x02\0\0\0\0S\nmessage M\nfield 0 plain uint64 a\n",
            b"unbound 1 hello 3\n",
        ),
    ];
    assert_reports(&rt, rt.alloc(), &rows);
}

// The hello of a listener's peer, with a version.
fn peer_hello(rt: &impl Abort, alloc: Global, version: u8) -> Vec<u8> {
    let plan = listener(rt, alloc);
    let hello = hello_of(rt, alloc, &plan, version);
    discard(plan);
    hello
}

// A listener that receives a hello with a version, and these bytes after it, prints these lines.
fn assert_after_hello<R: Abort + Threads + Wait + Sync>(
    rt: &R,
    alloc: Global,
    version: u8,
    bytes: &[u8],
    lines: &[u8],
) {
    let mut stream = peer_hello(rt, alloc, version);
    stream.extend_from_slice(bytes).expect(rt, "memory");
    assert_report(rt, alloc, PreparedEnd::giving(alloc, stream), lines);
}

// Like `assert_after_hello` for each row, after a hello of version 2.
fn assert_each_after_hello<R: Abort + Threads + Wait + Sync>(rt: &R, alloc: Global, rows: &[Row]) {
    for (bytes, lines) in rows {
        assert_after_hello(rt, alloc, 2, *bytes, *lines);
    }
}

const MISMATCH: &[u8] = b"unbound 1 mismatch 33 102 109\n";

#[test]
fn a_hello_of_version_1_asks_for_the_same_text(rt: HostRuntime) {
    assert_after_hello(&rt, rt.alloc(), 2, b"", b"");
    assert_after_hello(&rt, rt.alloc(), 1, b"", MISMATCH);
}

// An end that receives these bytes, nothing at first, and then one at a time.
fn slowly(rt: &impl Abort, alloc: Global, bytes: Vec<u8>) -> PreparedEnd {
    let mut end = PreparedEnd::giving(alloc, bytes);
    for at in 0..200_usize {
        end.lengths.push(at % 2).expect(rt, "memory");
    }
    end
}

#[test]
fn a_hello_may_come_in_pieces(rt: HostRuntime) {
    let end = slowly(&rt, rt.alloc(), peer_hello(&rt, rt.alloc(), 1));
    assert_report(&rt, rt.alloc(), end, MISMATCH);
}

#[test]
fn a_stream_that_ends_within_a_frame_is_cut(rt: HostRuntime) {
    let rows: [Row; 3] = [
        (b"\0\0\0", b"cut 1 70 Short\n"),
        (
            b"\0\0\0\x02\x01\x01\0\0\0\0\0\x02\0\0\0\x01\x08",
            b"cut 1 70 Short\n",
        ),
        (b"\0\x04\0\0\x01\x01", b"cut 1 70 Short\n"),
    ];
    assert_each_after_hello(&rt, rt.alloc(), &rows);
}

#[test]
fn a_stream_is_cut_where_it_has_no_frame(rt: HostRuntime) {
    let rows: [Row; 6] = [
        (b"\0\x04\0\x01", b"cut 1 70 TooLong\n"),
        (b"\0\0\0\0\0", b"cut 1 74 Kind\n"),
        (b"\0\0\0\0\x04", b"cut 1 74 Kind\n"),
        (b"\0\0\0\0\x01\0", b"cut 1 75 Version\n"),
        (b"\0\0\0\0\x02\x02", b"cut 1 75 Version\n"),
        (b"\0\0\0\0\x03\x03", b"cut 1 75 Version\n"),
    ];
    assert_each_after_hello(&rt, rt.alloc(), &rows);
}

#[test]
fn a_payload_may_be_as_long_as_the_limit(rt: HostRuntime) {
    let alloc = rt.alloc();
    let mut bytes = Vec::new(alloc);
    push_request(&rt, alloc, &mut bytes, 1, longest(&rt, alloc).as_slice());
    let lines = b"dropped 1 1 0 1 NumberZero 0\n";
    assert_after_hello(&rt, alloc, 2, bytes.as_slice(), lines);
}

// A hello, a request of method 258, one that the policy denies, and one of no field.
const DROPPED: &[u8] = b"\0\0\0\0\x03\x02\0\0\0\0\0\x02\0\0\0\0\
    \0\0\0\0\x01\x01\x01\x02\0\0\0\x02\0\0\0\x01\
    \0\0\0\x02\x01\x01\0\0\0\0\0\x02\0\0\0\x02\x08\x07\
    \0\0\0\0\x01\x01\0\0\0\0\0\x02\0\0\0\x03";

#[test]
fn each_cause_of_a_dropped_frame_is_reported(rt: HostRuntime) {
    let lines = b"dropped 1 3 0 0 Hello\ndropped 1 1 258 1 NoMethod\n\
        dropped 1 1 0 2 access p seven\ndropped 1 1 0 3 Oversize 8 8\n";
    assert_after_hello(&rt, rt.alloc(), 2, DROPPED, lines);
}

// Requests whose payloads are at fault, one for each reason.
fn faulty(rt: &impl Abort, alloc: Global) -> Vec<u8> {
    let payloads: [&[u8]; 7] = [
        b"\x08\x80\x80\x80\x80\x80\x80\x80\x80\x80\x80",
        b"\xff\xff\xff\xff\x7f",
        b"\0",
        b"\x0f",
        b"\x08",
        b"\x1a\x01\xff",
        b"\x22\x01\x80",
    ];
    let mut bytes = Vec::new(alloc);
    for payload in payloads {
        push_request(rt, alloc, &mut bytes, 1, payload);
    }
    push_request(rt, alloc, &mut bytes, 1, nested(rt, alloc).as_slice());
    bytes
}

#[test]
fn each_fault_of_a_payload_is_reported(rt: HostRuntime) {
    let lines = b"dropped 1 1 0 1 Varint 1\ndropped 1 1 0 1 TagRange 0\n\
        dropped 1 1 0 1 NumberZero 0\ndropped 1 1 0 1 WireType 0\ndropped 1 1 0 1 Short 1\n\
        dropped 1 1 0 1 Utf8 2\ndropped 1 1 0 1 PackedLength 2\ndropped 1 1 0 1 Depth 64\n";
    let bytes = faulty(&rt, rt.alloc());
    assert_after_hello(&rt, rt.alloc(), 2, bytes.as_slice(), lines);
}

// An end that receives this hello, and whose sends and receives with these numbers fail.
fn failing(
    rt: &impl Abort,
    alloc: Global,
    hello: Vec<u8>,
    sends: &[u64],
    receives: &[u64],
) -> PreparedEnd {
    let mut end = PreparedEnd::giving(alloc, hello);
    end.failing_sends
        .extend_from_slice(sends)
        .expect(rt, "memory");
    end.failing_receives
        .extend_from_slice(receives)
        .expect(rt, "memory");
    end
}

fn assert_fails<R: Abort + Threads + Wait + Sync>(
    rt: &R,
    alloc: Global,
    sends: &[u64],
    receives: &[u64],
    lines: &[u8],
) {
    let end = failing(rt, alloc, peer_hello(rt, alloc, 2), sends, receives);
    let told = ran_with(rt, alloc, listener(rt, alloc), end);
    assert!(rt; told.failed);
    assert_lines(rt, alloc, &told, lines);
}

#[test]
fn a_link_that_fails_before_the_hello_is_reported(rt: HostRuntime) {
    let alloc = rt.alloc();
    assert_fails(&rt, alloc, &[1], &[], b"unbound 1 transport\n");
    assert_fails(&rt, alloc, &[], &[1], b"unbound 1 transport\n");
    assert_fails(&rt, alloc, &[], &[2], b"");
}

const SENT_ONCE: &[u8] = b"took 1 1 0 0 2 1 1 copy 089601\nsent 1 1 19\nunbound 2 ended\n\
    method 0 1 1 0 0\ntotals 1 1 0 0\n";

// Under version 1 a hello with its own text binds it.
fn assert_sent_before_it_fails<R: Abort + Threads + Wait + Sync>(rt: &R, alloc: Global) {
    let plan = plan_of(rt, alloc, "workers = 1\n", ONE_CALL);
    let hello = hello_of(rt, alloc, &plan, 1);
    let end = failing(rt, alloc, hello, &[2], &[]);
    let told = ran_with(rt, alloc, plan, end);
    assert!(rt; told.failed);
    assert!(rt; told.text.as_slice() == SENT_ONCE);
}

// Its frame was in the queue before.
#[test]
fn a_call_stays_sent_whose_frame_then_fails(rt: HostRuntime) {
    assert_sent_before_it_fails(&rt, rt.alloc());
}
