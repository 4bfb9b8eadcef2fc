//! A talk over a link of any kind.

use mrpc_base::{Came, Handed, Link};
use std::sync::Wait;
use std::thread;

// The results of a talk: how many frames the link took, how many bytes were received, these as decimal
// digits, and the last result.
#[derive(Clone, Copy)]
pub(crate) struct Talked {
    pub sent: u64,
    pub came: u64,
    pub digits: u64,
    pub last: Came,
}

// Sends five frames, of no byte, of 1, of 1 and 2, and so on, finishes, and receives until nothing more
// arrives.
pub(crate) fn talk<R: Wait, L: Link>(rt: &R, link: &mut L) -> Talked
    ensures same_link { (first : L) → L.since first link.old → L.since first link.new }
{
    let mut sent = 0u64;
    for length in 0..5usize {
        if link.send(&[1, 2, 3, 4][..length]) == Handed::Done {
            sent = sent.wrapping_add(1);
        }
    }
    link.finish();
    receive_all(rt, link, sent)
}

// A talk over a link that is dropped after it.
pub(crate) fn talk_away<R: Wait, L: Link + Drop>(rt: &R, mut link: L) -> Talked {
    talk(rt, &mut link)
}

// Receives byte by byte, so that frames are split, until nothing more arrives.
pub(crate) fn receive_all<R: Wait, L: Link>(rt: &R, link: &mut L, sent: u64) -> Talked
    ensures same_link { (first : L) → L.since first link.old → L.since first link.new }
{
    let mut came = 0u64;
    let mut digits = 0u64;
    let mut buf = [0; 1];
    for _ in rt.forever() {
        match link.receive(&mut buf) {
            Came::Bytes(_) => {
                came = came.wrapping_add(1);
                digits = digits.wrapping_mul(10).wrapping_add(u64::from(buf[0]));
            }
            Came::Idle => thread::yield_now(),
            last => {
                return Talked {
                    sent,
                    came,
                    digits,
                    last,
                };
            }
        }
    }
    unreachable!()
}

// The byte that a frame of one byte has, or 0.
pub(crate) fn one_byte<L: Link>(link: &mut L) -> u8 {
    let mut buf = [0; 2];
    if link.receive(&mut buf) == Came::Bytes(1) {
        buf[0]
    } else {
        0
    }
}
