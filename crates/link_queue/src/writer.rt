//! The writer of a queue, which runs in a thread of its own.

ghost use Rattle.std.specs.Prelude.{◌≡◌, ◌<◌, ◌≤◌, IfOk, length, take, true, false};
ghost use Rattle.spsc_queue.specs.Ends.{pushed_of, popped_of};
ghost use Rattle.link_queue.specs.Inners.{forwarded};
ghost use Rattle.link_queue.specs.Sentinels.{IsForwarding, IsReturning};

use crate::WriterEnd;
use crate::inner::InnerLink;
use crate::orders::{Health, News, Order};
use mrpc_base::Link;
use mrpc_table::Bytes;
use polling::Backoff;
use spsc_queue::{Consumer, Piece, Producer};
use std::alloc::{AllocError, Global};
use std::mem;
use std::sync::Wait;

// The most bytes that one receive asks for.
const MAX_BYTES: usize = 4096;

// The most orders that are executed in a row before the next receive.
const MAX_ORDERS: usize = 64;

/// Forwards the frames of a queue to the inner link, in a thread of its own.
pub struct QueueWriter<'r, R, L: Link> {
    rt: &'r R,
    alloc: Global,
    pub(crate) inner: InnerLink<L>,
    pub(crate) orders: Consumer<Piece<Order>>,
    pub(crate) out: Producer<Piece<News>>,
    // A piece that waits for room in the queue back.
    held: Option<Piece<News>>,
    // The buffer for the next bytes, once it is allocated.
    buffer: Vec<u8>,
    // Whether it reported to the link that the inner link failed or the writer was out of memory.
    told: bool,
    closed: bool,
    ghost passes: { IsForwarding (popped_of orders) (forwarded inner) closed inner.health },
    ghost brings: { IsReturning (pushed_of out) held inner.came.bytes inner.ended inner.health },
}

// By hand, so that each drop is one call, and not a drop of every field.
impl<'r, R, L: Link + Drop> Drop for QueueWriter<'r, R, L> {
    fn drop(self) {
        let QueueWriter {
            rt: _,
            alloc: _,
            inner: _inner,
            orders: _orders,
            out: _out,
            held: _held,
            buffer: _buffer,
            told: _,
            closed: _,
        } = self;
    }
}

impl<'r, R: Wait, L: Link> QueueWriter<'r, R, L> {
    ghost use Rattle.std.specs.Prelude.{[], None};
    ghost use Rattle.link_queue.specs.Sentinels.{IsNewsOf};
    ghost use Rattle.spsc_queue.specs.Ends.{consumer_queue, producer_queue};
    ghost use Rattle.link_queue.specs.Writers.{writer_start, writer_forward, writer_backward, inner_start_of, end_forward, end_backward};

    pub(crate) fn new(
        rt: &'r R,
        alloc: Global,
        link: L,
        orders: Consumer<Piece<Order>>,
        out: Producer<Piece<News>>,
    ) -> QueueWriter<'r, R, L>
        requires taken { popped_of orders ≡ [] }
        requires put { pushed_of out ≡ [] }
        ensures start { writer_start result ≡ link }
        ensures forward { writer_forward result ≡ consumer_queue orders }
        ensures backward { writer_backward result ≡ producer_queue out }
    {
        QueueWriter {
            rt,
            alloc,
            inner: InnerLink::new(link),
            orders,
            out,
            held: None,
            buffer: Vec::new(alloc),
            told: false,
            closed: false,
        }
    }

    /// Forwards the frames of the queue, in order, until its link is closed, and returns what the inner link receives.
    /// After the inner link failed or the writer was out of memory, it pops further frames without forwarding them.
    pub fn run(self) -> WriterEnd<L>
        ensures start { inner_start_of result ≡ writer_start self.entry }
        ensures forward { end_forward result ≡ writer_forward self.entry }
        ensures backward { end_backward result ≡ writer_backward self.entry }
    {
        let rt = self.rt;
        let mut writer = self;
        let mut pauses = Backoff::new();
        for _ in rt.forever() {
            if writer.closed {
                return writer.end();
            }
            if writer.turn() {
                pauses.reset();
            } else {
                pauses.wait(rt);
            }
        }
        unreachable!()
    }

    // Moves what waits in both directions, and returns whether anything moved.
    fn turn(&mut self) -> bool
        requires { self.old.closed ≡ false }
        ensures start { writer_start self.new ≡ writer_start self.old }
        ensures forward { writer_forward self.new ≡ writer_forward self.old }
        ensures backward { writer_backward self.new ≡ writer_backward self.old }
    {
        let followed = self.execute_orders();
        if self.closed {
            return followed;
        }
        self.flush_held();
        self.report_health();
        self.receive() || followed
    }

    // Executes queued orders, up to a maximum in a row, and returns whether there was one.
    fn execute_orders(&mut self) -> bool
        requires { self.old.closed ≡ false }
        ensures start { writer_start self.new ≡ writer_start self.old }
        ensures forward { writer_forward self.new ≡ writer_forward self.old }
        ensures backward { writer_backward self.new ≡ writer_backward self.old }
    {
        for count in 0..MAX_ORDERS {
            if self.closed || !self.execute_order() {
                return count > 0;
            }
        }
        true
    }

    // Executes the next order, and returns whether there was one.
    fn execute_order(&mut self) -> bool
        requires { self.old.closed ≡ false }
        ensures start { writer_start self.new ≡ writer_start self.old }
        ensures forward { writer_forward self.new ≡ writer_forward self.old }
        ensures backward { writer_backward self.new ≡ writer_backward self.old }
    {
        match self.orders.pop(self.rt) {
            None => return false,
            Some(Piece::Bytes(frame)) => {
                if self.inner.health == Health::Working {
                    self.inner.send(frame.as_slice());
                }
            }
            Some(Piece::Sentinel(Order::Finish)) => self.inner.finish(),
            Some(Piece::Sentinel(Order::Close)) => {
                self.inner.finish();
                self.closed = true;
            }
        }
        true
    }

    // Pushes the piece that it holds into the queue back, if that has room.
    fn flush_held(&mut self)
        ensures closed { self.new.closed ≡ self.old.closed }
        ensures start { writer_start self.new ≡ writer_start self.old }
        ensures forward { writer_forward self.new ≡ writer_forward self.old }
        ensures backward { writer_backward self.new ≡ writer_backward self.old }
    {
        if let Some(piece) = self.held.take() {
            match self.out.try_push(self.rt, piece) {
                Ok(()) => {}
                Err(piece) => self.held = Some(piece),
            }
        }
    }

    // Reports to the link, once, that the inner link failed or the writer was out of memory.
    fn report_health(&mut self)
        ensures closed { self.new.closed ≡ self.old.closed }
        ensures start { writer_start self.new ≡ writer_start self.old }
        ensures forward { writer_forward self.new ≡ writer_forward self.old }
        ensures backward { writer_backward self.new ≡ writer_backward self.old }
    {
        if self.told || self.held.is_some() {
            return;
        }
        match self.inner.health {
            Health::Working => {}
            Health::Failed => self.push_news(News::Failed),
            Health::Memory => self.push_news(News::Memory),
        }
    }

    // Pushes the news into the queue back, if that has room.
    fn push_news(&mut self, news: News)
        requires holds_nothing { self.old.held ≡ None }
        requires so_it_is { IsNewsOf self.old.inner.health news }
        ensures closed { self.new.closed ≡ self.old.closed }
        ensures start { writer_start self.new ≡ writer_start self.old }
        ensures forward { writer_forward self.new ≡ writer_forward self.old }
        ensures backward { writer_backward self.new ≡ writer_backward self.old }
    {
        match self.out.try_push(self.rt, Piece::Sentinel(news)) {
            Ok(()) => self.told = true,
            Err(_) => {}
        }
    }

    // Receives once, unless it holds a piece or nothing more arrives. Returns whether bytes or the end arrived.
    fn receive(&mut self) -> bool
        ensures closed { self.new.closed ≡ self.old.closed }
        ensures start { writer_start self.new ≡ writer_start self.old }
        ensures forward { writer_forward self.new ≡ writer_forward self.old }
        ensures backward { writer_backward self.new ≡ writer_backward self.old }
    {
        if self.inner.health != Health::Working || self.inner.ended || self.held.is_some() {
            return false;
        }
        let kept = mem::replace(&mut self.buffer, Vec::new(self.alloc));
        match with_room(self.alloc, kept) {
            Ok(buffer) => self.take_bytes(buffer),
            Err(_) => self.inner.health = Health::Memory,
        }
        self.held.is_some()
    }

    // Receives into the buffer, and holds what arrived.
    fn take_bytes(&mut self, mut buffer: Vec<u8>)
        requires room { 0 < length buffer.items }
        requires working { self.old.inner.health ≡ Health.Working }
        requires before_end { self.old.inner.ended ≡ false }
        requires holds_nothing { self.old.held ≡ None }
        ensures closed { self.new.closed ≡ self.old.closed }
        ensures start { writer_start self.new ≡ writer_start self.old }
        ensures forward { writer_forward self.new ≡ writer_forward self.old }
        ensures backward { writer_backward self.new ≡ writer_backward self.old }
    {
        let count = self.inner.receive(buffer.as_mut_slice());
        if count > 0 {
            let (piece, left) = piece_of(self.alloc, buffer, count);
            self.buffer = left;
            self.held = Some(Piece::Bytes(piece));
        } else {
            self.buffer = buffer;
            if self.inner.ended {
                self.held = Some(Piece::Sentinel(News::End));
            }
        }
    }

    // The parts of the writer, after the link was closed.
    fn end(self) -> WriterEnd<L>
        requires { self.closed ≡ true }
        ensures start { inner_start_of result ≡ writer_start self.entry }
        ensures forward { end_forward result ≡ writer_forward self.entry }
        ensures backward { end_backward result ≡ writer_backward self.entry }
    {
        let QueueWriter {
            rt: _,
            alloc: _,
            inner,
            orders,
            out,
            held: _,
            buffer: _,
            told: _,
            closed: _,
        } = self;
        WriterEnd::new(inner, orders, out)
    }
}

// A prefix of a buffer as a piece of its own, and the buffer. When out of memory for a copy, the buffer itself
// becomes the piece.
fn piece_of(alloc: Global, mut buffer: Vec<u8>, count: usize) -> (Bytes, Vec<u8>)
    requires within { count ≤ length buffer.items }
    ensures piece { result.0 ≡ take count buffer.items }
{
    match Bytes::from_slice(alloc, &buffer[..count]) {
        Ok(copy) => (copy, buffer),
        Err(_) => {
            buffer.truncate(count);
            (Bytes::from_vec(buffer), Vec::new(alloc))
        }
    }
}

// The buffer from before, or a new one.
fn with_room(alloc: Global, kept: Vec<u8>) -> Result<Vec<u8>, AllocError>
    ensures { IfOk result (λ buffer. 0 < length buffer.items) }
{
    if kept.is_empty() {
        vec![in alloc; 0; MAX_BYTES]
    } else {
        Ok(kept)
    }
}
