//! A plain service between a client and an echo: it copies the descriptors of calls to notices.
ghost use Rattle.std.specs.Prelude.{◌≡◌, ◌≤◌, ◌<◌, ◌+◌, [], OnSome, length};
ghost use Rattle.descriptor_ring.specs.Rings.{IsDescriptorOf};
ghost use Rattle.bench_apps.specs.Services.{IsUnused};

use crate::taking::{SideReader, TakenCalls};
use descriptor_ring::{Descriptor, Full, Receiver, Sender, Taken};
use polling::{RunFlag, StopFlag};
use shared_heap::Writer;
use std::sync::Wait;

// The service's side of an application.
pub(crate) struct AppSide {
    pub(crate) taking: SideReader,
    pub(crate) notices: Sender,
}

// Written by hand, so that a drop is one call, not a drop of each part.
impl Drop for AppSide {
    fn drop(self) {
        let AppSide {
            taking: _taking,
            notices: _notices,
        } = self;
    }
}

impl AppSide {
    // Closes the application's ring of notices, and takes what the application sends until it closes its own
    // ring.
    fn finish<R: Wait>(self, rt: &R, stop: &RunFlag) -> Option<TakenCalls> {
        let AppSide {
            mut taking,
            notices,
        } = self;
        close_notices(rt, stop, &mut taking, notices)?;
        take_remaining(rt, stop, &mut taking)
    }
}

// The service's sides of both. The writer stores nothing; the client's notices belong to its heap.
pub(crate) struct Service {
    pub(crate) client: AppSide,
    pub(crate) echo: AppSide,
    pub(crate) writer: Writer,
}

impl Drop for Service {
    fn drop(self) {
        let Service {
            client: _client,
            echo: _echo,
            writer: _writer,
        } = self;
    }
}

impl Service {
    // Forwards the client's calls to the echo, and takes the replies. A client takes its notices after its
    // calls are done, so it gets the notices of the replies then, at most `count`. Returns the results of the
    // echo; `None` once the flag is set, here and below.
    pub(crate) fn serve<R: Wait>(self, rt: &R, stop: &RunFlag, count: u32) -> Option<TakenCalls>
        requires few { count < 4294967294 }
        requires unused { IsUnused self }
    {
        let Service {
            mut client,
            echo,
            mut writer,
        } = self;
        let replies = serve_echo(rt, stop, &mut client.taking.calls, echo)?;
        let told = if replies.calls < u64::from(count) {
            replies.calls
        } else {
            u64::from(count)
        };
        send_reply_notices(rt, stop, &mut client, &mut writer, told)?;
        client.finish(rt, stop)?;
        Some(replies)
    }
}

// Has the calls of a ring echoed until the ring is closed, and returns the results of the echo.
fn serve_echo<R: Wait>(
    rt: &R,
    stop: &RunFlag,
    calls: &mut Receiver,
    echo: AppSide,
) -> Option<TakenCalls>
    requires heap { calls.old.heap ≡ echo.notices.heap }
    requires new { (calls.old.taken ≡ []) × (echo.notices.sent ≡ []) }
{
    let mut echo = echo;
    pass_calls(rt, stop, calls, &mut echo)?;
    echo.finish(rt, stop)
}

// Sends a notice for each call, until their ring is closed.
fn pass_calls<R: Wait>(
    rt: &R,
    stop: &RunFlag,
    calls: &mut Receiver,
    echo: &mut AppSide,
) -> Option<()>
    requires heap { calls.old.heap ≡ echo.old.notices.heap }
    requires new { (calls.old.taken ≡ []) × (echo.old.notices.sent ≡ []) }
{
    let mut number = 0u32;
    for _ in rt.forever() {
        match calls.take(rt) {
            Taken::Item(mut call) => {
                number += 1;
                call.number = number;
                give(rt, stop, echo, call)?;
            }
            Taken::Closed => return Some(()),
            Taken::Empty(_) => {
                echo.taking.turn(rt, stop)?;
            }
        }
    }
    unreachable!()
}

// Sends an application the notices of this number of replies.
fn send_reply_notices<R: Wait>(
    rt: &R,
    stop: &RunFlag,
    client: &mut AppSide,
    writer: &mut Writer,
    count: u64,
) -> Option<()>
    requires few { count < 4294967294 }
    requires heap { client.old.notices.heap ≡ writer.old.heap }
    requires new { client.old.notices.sent ≡ [] }
{
    for _ in 0..count {
        let notice = reply(writer);
        give(rt, stop, client, notice)?;
    }
    Some(())
}

fn reply(writer: &mut Writer) -> Descriptor
    ensures of_heap { IsDescriptorOf writer.old.heap result }
    ensures same { writer.new ≡ writer.old }
{
    Descriptor {
        kind: 2,
        method: 0,
        number: 1,
        addr: 1,
        stores: writer.stores(),
        note: writer.note(),
    }
}

// Sends a notice.
fn give<R: Wait>(rt: &R, stop: &RunFlag, side: &mut AppSide, mut notice: Descriptor) -> Option<()>
    requires of_heap { IsDescriptorOf side.old.notices.heap notice }
    requires few { length side.old.notices.sent < 4294967294 }
    ensures sent { OnSome result (length side.new.notices.sent ≡ length side.old.notices.sent + 1) }
    ensures heap { side.new.notices.heap ≡ side.old.notices.heap }
{
    for _ in rt.forever() {
        match side.notices.send(rt, notice) {
            Ok(()) => return Some(()),
            Err(full) => {
                let Full {
                    descriptor,
                    lesson: _,
                } = full;
                notice = descriptor;
            }
        }
        side.taking.turn(rt, stop)?;
    }
    unreachable!()
}

fn take_remaining<R: Wait>(rt: &R, stop: &RunFlag, taking: &mut SideReader) -> Option<TakenCalls> {
    for _ in rt.forever() {
        if taking.turn(rt, stop)? {
            return Some(taking.found);
        }
    }
    unreachable!()
}

fn close_notices<R: Wait>(
    rt: &R,
    stop: &RunFlag,
    taking: &mut SideReader,
    mut notices: Sender,
) -> Option<()> {
    for _ in rt.forever() {
        match notices.close(rt) {
            Ok(_) => return Some(()),
            Err((back, _)) => notices = back,
        }
        taking.turn(rt, stop)?;
    }
    unreachable!()
}
