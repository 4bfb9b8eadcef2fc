//! A port in parts: the application's side, what the service sends through it, and what it takes.

ghost use Rattle.std.specs.Prelude.{◌≡◌, ◌≤◌, []};
ghost use Rattle.app_program.specs.Programs.{IsClientProgram, IsServerProgram};
ghost use Rattle.descriptor_ring.specs.Rings.{IsDescriptorOf};

use app_program::Program;
use app_stub::{AppEnd, AppPort};
use descriptor_ring::{
    Descriptor, NumberReceiver, NumberSender, NumberTaken, Receiver, Sender, Taken,
};
use mrpc_base::{Stores, Words};
use polling::{RunFlag, StopFlag};
use shared_heap::{Reader, Writer};
use std::alloc::Global;
use std::marker::Model;
use std::process::Abort;
use std::sync::Wait;
use std::thread;
use table_text::read_table;

// The number of words of each heap.
pub(crate) const WORDS: u64 = 4096;

// The number of notices and of block numbers that the rings to the application hold.
const NOTICES: u64 = 4;

// What a take returns in place of an address or a number.
pub(crate) const CLOSED: u64 = 1 << 20;

pub(crate) const EMPTY: u64 = 1 << 21;

// An application that hasn't started.
pub(crate) struct App {
    port: AppPort<RunFlag>,
    begun: u64,
}

impl Model for App {
    ghost use Rattle.std.specs.Prelude.{◌≡◌, ◌≤◌, ℕ};
    ghost use Rattle.app_stub.specs.Ports.{IsNew};
    ghost use Rattle.tests_threads.specs.declared.apps.port.TheConstants.{WORDS};

    ghost Value = { ℕ };

    ghost view = { λ a. a.begun };

    ghost invariant = { λ a. IsNew a.port × (a.port.writer.heap.words ≡ WORDS) × (a.port.reader.heap.words ≡ WORDS)
        × (a.port.capacity ≤ 1024) };
}

// Written by hand, like those below, so that a drop is one call.
impl Drop for App {
    fn drop(self) {
        let App {
            port: _port,
            begun: _,
        } = self;
    }
}

impl App {
    // Runs it as a client; whether it finished.
    pub(crate) fn client<R: Abort + Wait>(self, rt: &R, program: &Program) -> bool
        requires { IsClientProgram WORDS program.now }
    {
        let App { port, begun: _ } = self;
        is_whole(rt, app_stub::client(rt, program, port))
    }

    // Like `client`, as a server.
    pub(crate) fn server<R: Abort + Wait>(self, rt: &R, program: &Program) -> bool
        requires { IsServerProgram WORDS program.now }
    {
        let App { port, begun: _ } = self;
        is_whole(rt, app_stub::server(rt, program, port))
    }

    // Like `client`, as an echo under this table.
    pub(crate) fn echo<R: Abort + Wait>(self, rt: &R, alloc: Global, table: &[u8]) -> bool {
        let App { port, begun: _ } = self;
        let table = read_table(alloc, table).expect(rt, "a table");
        is_whole(rt, app_stub::echo(rt, alloc, &table, port))
    }
}

// Whether the application finished, and wasn't stopped.
fn is_whole(rt: &impl Abort, end: AppEnd) -> bool {
    assert!(rt; !end.memory);
    end.sent.is_some()
}

// What the service sends to an application.
pub(crate) struct AppInput {
    writer: Writer,
    notices: Sender,
    blocks: NumberSender,
    // The number of messages that it sent notices of.
    told: u64,
}

impl Model for AppInput {
    ghost use Rattle.std.specs.Prelude.{◌≡◌, ◌≤◌, ℕ, length};
    ghost use Rattle.tests_threads.specs.declared.apps.port.TheConstants.{WORDS};

    ghost Value = { ℕ };

    ghost view = { λ g. g.told };

    ghost invariant = { λ g. (g.writer.heap.words ≡ WORDS) × (g.notices.heap ≡ g.writer.heap)
        × (length g.notices.sent ≤ g.told) × (length g.blocks.sent ≤ g.told) };
}

impl Drop for AppInput {
    fn drop(self) {
        let AppInput {
            writer: _writer,
            notices: _notices,
            blocks: _blocks,
            told: _,
        } = self;
    }
}

impl AppInput {
    // Stores at a place from 1 on, up to a million times.
    pub(crate) fn store(&mut self, place: u64, value: u64) {
        if 1 <= place && place < WORDS && self.writer.made() < 1_000_000 {
            self.writer.store(place, value);
        }
    }

    // Sends the notice of a request of method 0, whose message is at this address in the block with the
    // request's number.
    pub(crate) fn tell<R: Abort + Wait>(&mut self, rt: &R, number: u32, addr: u64) {
        assert!(rt; self.told < 1000);
        self.told += 1;
        let notice = notice(&mut self.writer, number, addr);
        assert!(rt; self.notices.send(rt, notice).is_ok());
        assert!(rt; self.blocks.send(rt, u64::from(number)).is_ok());
    }

    // Sends the notice of a request, but not the number of its block.
    pub(crate) fn tell_half<R: Abort + Wait>(&mut self, rt: &R) {
        assert!(rt; self.told < 1000);
        self.told += 1;
        let notice = notice(&mut self.writer, 1, 1);
        assert!(rt; self.notices.send(rt, notice).is_ok());
    }

    // Closes both rings.
    pub(crate) fn close<R: Abort + Wait>(self, rt: &R) {
        let AppInput {
            writer: _writer,
            notices,
            blocks,
            told: _,
        } = self;
        assert!(rt; notices.close(rt).is_ok());
        assert!(rt; blocks.close(rt).is_ok());
    }
}

fn notice(writer: &mut Writer, number: u32, addr: u64) -> Descriptor
    ensures of_heap { IsDescriptorOf writer.old.heap result }
    ensures same { writer.new ≡ writer.old }
{
    Descriptor {
        kind: 1,
        method: 0,
        number,
        addr,
        stores: writer.stores(),
        note: writer.note(),
    }
}

// What the service takes from an application.
pub(crate) struct AppOutput {
    reader: Reader,
    calls: Receiver,
    reclaims: NumberReceiver,
    // The number of attempts to take something.
    tried: u64,
}

impl Model for AppOutput {
    ghost use Rattle.std.specs.Prelude.{◌≡◌, ℕ};
    ghost use Rattle.tests_threads.specs.declared.apps.port.TheConstants.{WORDS};

    ghost Value = { ℕ };

    ghost view = { λ t. t.tried };

    ghost invariant = { λ t. (t.reader.heap.words ≡ WORDS) × (t.calls.heap ≡ t.reader.heap) };
}

impl Drop for AppOutput {
    fn drop(self) {
        let AppOutput {
            reader: _reader,
            calls: _calls,
            reclaims: _reclaims,
            tried: _,
        } = self;
    }
}

impl AppOutput {
    // The address of the next call, whose note is met; or `CLOSED` or `EMPTY`.
    pub(crate) fn call<R: Wait>(&mut self, rt: &R) -> u64 {
        self.tried = self.tried.wrapping_add(1);
        match self.calls.take(rt) {
            Taken::Item(call) => {
                let Descriptor { addr, note, .. } = call;
                self.reader.meet(note);
                addr
            }
            Taken::Closed => CLOSED,
            Taken::Empty(_) => EMPTY,
        }
    }

    // The number of the next returned block; or `CLOSED` or `EMPTY`.
    pub(crate) fn block<R: Wait>(&mut self, rt: &R) -> u64 {
        self.tried = self.tried.wrapping_add(1);
        match self.reclaims.take(rt) {
            NumberTaken::Item(block) => block,
            NumberTaken::Closed => CLOSED,
            NumberTaken::Empty(_) => EMPTY,
        }
    }

    // The next call, or the closing.
    pub(crate) fn wait_for_call<R: Wait>(&mut self, rt: &R) -> u64 {
        for _ in rt.forever() {
            let addr = self.call(rt);
            if addr != EMPTY {
                return addr;
            }
            thread::yield_now();
        }
        unreachable!()
    }

    pub(crate) fn wait_for_block<R: Wait>(&mut self, rt: &R) {
        for _ in rt.forever() {
            if self.block(rt) != EMPTY {
                return;
            }
            thread::yield_now();
        }
    }

    // The word at a place, or 0 if that is outside the heap.
    pub(crate) fn word(&mut self, place: u64) -> u64 {
        if place < WORDS {
            self.reader.load(place)
        } else {
            0
        }
    }
}

// New rings and a new heap for what the service sends, and the application's ends of them.
fn open_giving(rt: &impl Abort, alloc: Global) -> (AppInput, Reader, Receiver, NumberReceiver)
    ensures words { result.1.heap.words ≡ WORDS }
    ensures heap { result.2.heap ≡ result.1.heap }
    ensures unused { (result.1.loads ≡ []) × (result.2.taken ≡ []) × (result.3.taken ≡ []) }
{
    let (writer, reader) = shared_heap::open(alloc, WORDS).expect(rt, "memory");
    let (sender, notices) = descriptor_ring::open(alloc, NOTICES, &reader).expect(rt, "memory");
    let (numbers, blocks) = descriptor_ring::open_numbers(alloc, NOTICES).expect(rt, "memory");
    let giving = AppInput {
        writer,
        notices: sender,
        blocks: numbers,
        told: 0,
    };
    (giving, reader, notices, blocks)
}

// New rings with this much room and a new heap for what the service takes, and the application's ends of
// them.
fn open_taking(
    rt: &impl Abort,
    alloc: Global,
    room: u64,
) -> (AppOutput, Writer, Sender, NumberSender)
    requires { (1 ≤ room) × (room ≤ 1024) }
    ensures words { result.1.heap.words ≡ WORDS }
    ensures heap { result.2.heap ≡ result.1.heap }
    ensures room { result.2.capacity ≡ room }
    ensures unused { (result.1.stores ≡ []) × (result.2.sent ≡ []) × (result.3.sent ≡ []) }
{
    let (writer, reader) = shared_heap::open(alloc, WORDS).expect(rt, "memory");
    let (sender, calls) = descriptor_ring::open(alloc, room, &reader).expect(rt, "memory");
    let (numbers, reclaims) = descriptor_ring::open_numbers(alloc, room).expect(rt, "memory");
    let taking = AppOutput {
        reader,
        calls,
        reclaims,
        tried: 0,
    };
    (taking, writer, sender, numbers)
}

// A stop flag, set or not.
fn flag(rt: &impl Abort, alloc: Global, is_set: bool) -> RunFlag {
    let stop = RunFlag::new(alloc).expect(rt, "memory");
    if is_set {
        stop.set();
    }
    stop
}

// A port whose application can send this number of calls and return this number of blocks before it waits,
// and whose flag is set or not.
pub(crate) fn open(
    rt: &impl Abort,
    alloc: Global,
    room: u64,
    stopped: bool,
) -> (App, AppInput, AppOutput)
    requires { (1 ≤ room) × (room ≤ 1024) }
{
    let (taking, writer, sender, reclaims) = open_taking(rt, alloc, room);
    let (giving, reader, notices, blocks) = open_giving(rt, alloc);
    let port = AppPort {
        writer,
        sender,
        capacity: room,
        notices,
        blocks,
        reader,
        reclaims,
        stop: flag(rt, alloc, stopped),
    };
    (App { port, begun: 0 }, giving, taking)
}
