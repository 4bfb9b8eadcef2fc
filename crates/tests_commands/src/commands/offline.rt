//! Commands that run no connections, whose reads, lines or frames fail.

use crate::devices::{Devices, Failing, words_of};
use mrpc_top::{INPUT_FAILED, OUTPUT_FAILED, WIRE_FAILED, replay_is_unique, run_still};
use std::alloc::Global;
use std::process::Abort;

// A call with 150.
const ONE_CALL: &[u8] =
    b"mrpc-replay 1\ntable\nmessage M\nfield 1 plain uint64 a\nmethod 0 S Get M M\nend\n\
      conn 1 16\nstore 1 2 150\nsubmit 1 0 2\ndrain 1\nclose\n";

// Three calls with 7.
const THREE_CALLS: &[u8] =
    b"mrpc-replay 1\ntable\nmessage M\nfield 1 plain uint64 a\nmethod 0 S Get M M\nend\n\
      conn 1 16\nstore 1 2 7\nsubmit 1 0 2\nsubmit 1 0 2\nsubmit 1 0 2\ndrain 1\nclose\n";

// Like `THREE_CALLS`, with a call on another connection.
const TWO_CONNECTIONS: &[u8] =
    b"mrpc-replay 1\ntable\nmessage M\nfield 1 plain uint64 a\nmethod 0 S Get M M\nend\n\
      conn 1 16\nconn 2 16\nstore 1 2 7\nsubmit 2 0 2\nsubmit 1 0 2\nsubmit 1 0 2\nsubmit 1 0 2\n\
      drain 1\nmoment 1 5\ndrain 2\nclose\n";

// An address book.
const BOOK: &[u8] = b"// Address book.\nsyntax = \"proto3\";\npackage demo;\n\
      option java_package = \"org.demo\";\nmessage Person {\n  string name = 1;\n  int32 id = 2;\n\
      repeated int32 marks = 3;\n  enum Kind { UNSET = 0; HOME = 1; }\n  Kind kind = 4;\n\
      message Phone { string number = 1; optional bool main = 2; }\n  repeated Phone phones = 5;\n\
      map<string, uint64> tags = 6;\n  oneof contact { string email = 7; uint64 pager = 8; }\n\
      reserved 9, 20 to 30;\n}\nmessage Ack { bool ok = 1; }\nservice Book {\n\
      rpc Add (Person) returns (Ack);\n  rpc Find (Ack) returns (Person) { option deprecated = true; }\n}\n";

// The frames of a call with 150, and of the first one with 7.
const FRAME_150: &[u8] = b"\0\0\0\x03\x01\x01\0\0\0\0\0\x01\0\0\0\x01\x08\x96\x01";

const FRAME_7: &[u8] = b"\0\0\0\x02\x01\x01\0\0\0\0\0\x01\0\0\0\x01\x08\x07";

// An input, the calls that fail, and the results: the status, the lines, how many writes were attempted for
// them, and the frames.
#[derive(Copy, Clone)]
struct Row<'a> {
    input: &'a [u8],
    failing: Failing<'a>,
    status: u8,
    lines: &'a [u8],
    writes: u64,
    frames: &'a [u8],
}

fn status_of(rt: &impl Abort, alloc: Global, command: &str, devices: &mut Devices) -> u8 {
    let words = words_of(rt, alloc, command);
    run_still(
        alloc,
        &words,
        &mut devices.input,
        &mut devices.out,
        &mut devices.beside,
    )
}

fn assert_row(rt: &impl Abort, alloc: Global, command: &str, row: &Row) {
    let mut devices = Devices::new(rt, alloc, row.input, row.failing);
    assert!(rt; status_of(rt, alloc, command, &mut devices) == row.status);
    assert!(rt; devices.out.written() == row.lines);
    assert!(rt; devices.out.calls() == row.writes);
    assert!(rt; devices.beside.written() == row.frames);
}

// The results if the second read fails, after the first one returned a part of the input.
fn unread(input: &[u8]) -> Row {
    Row {
        input,
        failing: Failing {
            reads: &[2],
            lines: &[],
            beside: &[],
        },
        status: INPUT_FAILED,
        lines: b"",
        writes: 0,
        frames: b"",
    }
}

#[test]
fn nothing_is_written_after_a_failed_read(rt: HostRuntime) {
    assert_row(&rt, rt.alloc(), "replay", &unread(ONE_CALL));
    assert_row(&rt, rt.alloc(), "check", &unread(BOOK));
}

fn assert_replays(rt: &impl Abort, alloc: Global, rows: &[Row]) {
    for row in rows {
        assert_row(rt, alloc, "replay", row);
    }
}

#[test]
fn pending_calls_are_refused_after_a_failed_frame(rt: HostRuntime) {
    replay_is_unique();
    let rows = [
        Row {
            input: THREE_CALLS,
            failing: Failing {
                reads: &[],
                lines: &[],
                beside: &[1],
            },
            status: WIRE_FAILED,
            lines: b"took 1 1 0 0 2 1 1 copy 0807\ntook 1 2 0 0 2 1 1 copy 0807\n\
                took 1 3 0 0 2 1 1 copy 0807\nrefused 1 1 transport\nrefused 1 2 transport\n\
                refused 1 3 transport\n",
            writes: 6,
            frames: b"",
        },
        Row {
            input: TWO_CONNECTIONS,
            failing: Failing {
                reads: &[],
                lines: &[],
                beside: &[2],
            },
            status: WIRE_FAILED,
            lines: b"took 2 1 0 0 2 0 1 copy -\ntook 1 1 0 0 2 1 1 copy 0807\n\
                took 1 2 0 0 2 1 1 copy 0807\ntook 1 3 0 0 2 1 1 copy 0807\nsent 1 1 18\n\
                refused 1 2 transport\nrefused 1 3 transport\nstands 2 1 0 -\n",
            writes: 8,
            frames: FRAME_7,
        },
    ];
    assert_replays(&rt, rt.alloc(), &rows);
}

// Each line is one write.
#[test]
fn lines_are_kept_up_to_the_one_that_fails(rt: HostRuntime) {
    let rows = [
        Row {
            input: ONE_CALL,
            failing: Failing {
                reads: &[],
                lines: &[2],
                beside: &[],
            },
            status: OUTPUT_FAILED,
            lines: b"took 1 1 0 0 2 1 1 copy 089601\n",
            writes: 2,
            frames: FRAME_150,
        },
        Row {
            input: THREE_CALLS,
            failing: Failing {
                reads: &[],
                lines: &[5],
                beside: &[2],
            },
            status: OUTPUT_FAILED,
            lines: b"took 1 1 0 0 2 1 1 copy 0807\ntook 1 2 0 0 2 1 1 copy 0807\n\
                took 1 3 0 0 2 1 1 copy 0807\nsent 1 1 18\n",
            writes: 5,
            frames: FRAME_7,
        },
    ];
    assert_replays(&rt, rt.alloc(), &rows);
}
