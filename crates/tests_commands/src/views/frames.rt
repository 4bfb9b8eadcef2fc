//! Views of frames whose reads, lines or sentences fail.

use crate::devices::{Devices, Failing, words_of};
use std::alloc::Global;
use std::process::Abort;
use view_top::{FAULTY_INPUT, INPUT_FAILED, OUTPUT_FAILED, run_view};

// A table, the frame of a request with 150, and the start of another frame.
const CUT_OFF: &[u8] =
    b"mrpc-decode 1\ntable\nmessage M\nfield 1 plain uint64 a\nmethod 0 S Get M M\nend\n\
      \x00\x00\x00\x03\x01\x01\x00\x00\x00\x00\x00\x01\x00\x00\x00\x01\x08\x96\x01\x00";

// The devices after the view of the frames, whose calls fail as listed, if it ends with this status.
fn shown(rt: &impl Abort, alloc: Global, failing: Failing, status: u8) -> Devices {
    let mut devices = Devices::new(rt, alloc, CUT_OFF, failing);
    assert!(rt; show(rt, alloc, &mut devices) == status);
    devices
}

fn show(rt: &impl Abort, alloc: Global, devices: &mut Devices) -> u8 {
    let words = words_of(rt, alloc, "frames");
    run_view(
        alloc,
        &words,
        &mut devices.input,
        &mut devices.out,
        &mut devices.beside,
    )
}

#[test]
fn a_failed_read_leaves_all_unwritten(rt: HostRuntime) {
    let failing = Failing {
        reads: &[2],
        lines: &[],
        beside: &[],
    };
    let devices = shown(&rt, rt.alloc(), failing, INPUT_FAILED);
    assert!(rt; devices.out.calls() == 0);
}

#[test]
fn nothing_is_explained_after_a_failed_line(rt: HostRuntime) {
    let failing = Failing {
        reads: &[],
        lines: &[2],
        beside: &[],
    };
    let devices = shown(&rt, rt.alloc(), failing, OUTPUT_FAILED);
    assert!(rt; devices.out.calls() == 2);
    assert!(rt; devices.beside.calls() == 0);
}

#[test]
fn the_fault_counts_where_its_sentence_fails(rt: HostRuntime) {
    let failing = Failing {
        reads: &[],
        lines: &[],
        beside: &[1],
    };
    let devices = shown(&rt, rt.alloc(), failing, FAULTY_INPUT);
    assert!(rt; devices.out.written().ends_with(b"fault 19 Short\n"));
}
