//! A link over a queue, and the writer that forwards its frames.

ghost use Rattle.std.specs.Prelude.{◌≡◌};

use crate::discard;
use crate::links::talks::{Talked, talk};
use link_queue::{ClosedQueueLink, QueueLink, WriterEnd, open};
use mrpc_base::{Came, Handed, Link, MemLink};
use std::alloc::Global;
use std::process::Abort;
use std::sync::Wait;
use std::thread;
use std::thread::Threads;

// A link that is out of memory in each send, and with `in_receives` also in each receive.
#[derive(Drop)]
struct OutOfMemoryLink {
    in_receives: bool,
}

impl Link for OutOfMemoryLink {
    ghost use Rattle.std.specs.Prelude.{[], None, false, ⊤};

    ghost handed = { λ _. [] };

    ghost given = { λ _. None };

    ghost ended = { λ _. false };

    ghost nothing_ready = { λ old new. ⊤ };

    ghost peer_finished = { λ old new. ⊤ };

    ghost failures = { λ _. 0 };

    ghost since = { λ old new. new.in_receives ≡ old.in_receives };

    ghost use mathlib.Core.Path.{refl};

    ghost itself = { λ _. refl };

    // A failure claims nothing more.
    ghost refused = { λ _ _ _. ⊤ };

    fn send(&mut self, _frame: &[u8]) -> Handed {
        Handed::Memory
    }

    fn receive(&mut self, _buf: &mut [u8]) -> Came {
        if self.in_receives {
            Came::Memory
        } else {
            Came::Idle
        }
    }

    fn finish(&mut self) {}
}

// A talk over the link, which is then closed.
fn talk_and_close<R: Wait>(rt: &R, mut link: QueueLink<R>) -> (ClosedQueueLink, Talked)
    ensures forward { result.0.forward ≡ link.entry.forward }
    ensures backward { result.0.backward ≡ link.entry.backward }
{
    let talked = talk(rt, &mut link);
    (link.close(), talked)
}

// The results of a talk through a writer, besides the inner link.
#[derive(Clone, Copy)]
pub(crate) struct TalkResults {
    pub talked: Talked,
    pub failed: bool,
    pub memory: bool,
}

// A talk over an inner link through queues of one slot, with the writer in a thread of its own. Returns the
// inner link.
pub(crate) fn talk_over<R, L>(rt: &R, alloc: Global, inner: L) -> (L, TalkResults)
where
    R: Abort + Threads + Wait + Sync,
    L: Link + Send + Drop,
    ensures same_link { (first : L) → L.since first inner → L.since first result.0 }
{
    let (link, writer) = open(rt, alloc, 1, inner).expect(rt, "memory");
    let (mut end, (passed, talked)) = thread::join(
        rt,
        move || writer.run(),
        move || talk_and_close(rt, link),
    );
    end.meet(passed);
    let told = TalkResults {
        talked,
        failed: end.failed(),
        memory: end.is_out_of_memory(),
    };
    (end.into_link(), told)
}

// A link that returns the bytes 7, 8 and 9, one at a time, and fails as listed.
fn three_bytes(rt: &impl Abort, alloc: Global, sends: &[u64], receives: &[u64]) -> MemLink {
    MemLink::new(
        alloc,
        [7, 8, 9].to_vec(alloc).expect(rt, "memory"),
        [1, 1, 1].to_vec(alloc).expect(rt, "memory"),
        sends.to_vec(alloc).expect(rt, "memory"),
        receives.to_vec(alloc).expect(rt, "memory"),
    )
}

// The talk over a link of three bytes, with the number of frames that the link was handed.
fn talk_in_memory<R: Abort + Threads + Wait + Sync>(
    rt: &R,
    alloc: Global,
    sends: &[u64],
    receives: &[u64],
) -> (TalkResults, usize) {
    let inner = three_bytes(rt, alloc, sends, receives);
    let (inner, told) = talk_over(rt, alloc, inner);
    (told, inner.handed().len())
}

#[test]
fn each_send_fails(rt: HostRuntime) {
    for k in 0..5u64 {
        let (told, handed) = talk_in_memory(&rt, rt.alloc(), &[k + 1], &[]);
        assert!(rt; told.talked.sent == 5);
        assert!(rt; told.talked.last == Came::Failed);
        assert!(rt; told.failed);
        assert!(rt; handed as u64 == k);
    }
}

#[test]
fn each_receive_fails(rt: HostRuntime) {
    for k in 0..4u64 {
        let (told, _) = talk_in_memory(&rt, rt.alloc(), &[], &[k + 1]);
        assert!(rt; told.talked.sent == 5);
        assert!(rt; told.talked.came == k);
        assert!(rt; told.talked.last == Came::Failed);
    }
}

#[test]
fn a_link_runs_out_of_memory(rt: HostRuntime) {
    for in_receives in [false, true] {
        let (_, told) = talk_over(&rt, rt.alloc(), OutOfMemoryLink { in_receives });
        assert!(rt; told.talked.sent == 5);
        assert!(rt; told.talked.came == 0);
        assert!(rt; told.talked.last == Came::Memory);
        assert!(rt; told.memory);
    }
}

// Sends a frame into a queue of one slot, finishes the link twice and closes it, and only then runs the
// writer.
fn written_late<R: Abort + Wait>(rt: &R, alloc: Global) -> WriterEnd<MemLink> {
    let inner = three_bytes(rt, alloc, &[], &[]);
    let (mut link, writer) = open(rt, alloc, 1, inner).expect(rt, "memory");
    assert_sends(rt, &mut link);
    link.finish();
    link.finish();
    let _passed = link.close();
    writer.run()
}

// Like `written_late`, but the link is dropped, neither finished nor closed.
fn written_for_nobody<R: Abort + Wait>(rt: &R, alloc: Global) -> WriterEnd<MemLink> {
    let inner = three_bytes(rt, alloc, &[], &[]);
    let (mut link, writer) = open(rt, alloc, 1, inner).expect(rt, "memory");
    assert_sends(rt, &mut link);
    discard(link);
    writer.run()
}

fn assert_sends<R: Abort + Wait>(rt: &R, link: &mut QueueLink<R>) {
    assert!(rt; link.send(&[5, 6]) == Handed::Done);
}

// Whether the link was handed that frame alone.
fn has_the_frame(link: &MemLink) -> bool {
    match link.handed() {
        [frame] => frame.as_slice() == [5, 6].as_slice(),
        _ => false,
    }
}

fn assert_works(rt: &impl Abort, end: &WriterEnd<MemLink>) {
    assert!(rt; !end.failed());
    assert!(rt; !end.is_out_of_memory());
    assert!(rt; has_the_frame(end.link()));
    assert!(rt; end.link().is_finished());
}

#[test]
fn a_dropped_link_ends_its_writer(rt: HostRuntime) {
    let end = written_for_nobody(&rt, rt.alloc());
    assert_works(&rt, &end);
}

#[test]
fn finish_and_close_find_their_places(rt: HostRuntime) {
    let end = written_late(&rt, rt.alloc());
    assert_works(&rt, &end);
}
