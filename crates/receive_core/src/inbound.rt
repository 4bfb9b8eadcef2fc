//! A connection's receiver.

ghost use Rattle.std.specs.Prelude.{◌≡◌, ◌≢◌, ◌<◌, ◌≤◌, ◌+◌, ◌-◌, ◌++◌, ◌^◌, ◌↔◌, ◌⊎◌, [], ◌∷◌, ℕ, List, length, All, IfOk, OnOk, IfErr, OnErr, IsErr, IsErrOf, IfSome, IfNone, Some, None, Ok, Err, slice_get};
ghost use Rattle.std.specs.List.{flat_map};
ghost use Rattle.std.specs.Option.{option_copied};
ghost use Rattle.mrpc_table.specs.Valid.{IsValid};
ghost use Rattle.mrpc_table.specs.declared.limits.TheConstants.{MAX_HEAP, MIN_HEAP};
ghost use Rattle.mrpc_table.specs.declared.table.Table.{Table as TheTable};
ghost use Rattle.frame_transport.specs.Feed.{total_fed, IsNextFrame, IsFedBy, HasStoppedAt};
ghost use Rattle.frame_transport.specs.Frames.{HasFaultSoFar, IsPartial, IsSplitOf};
ghost use Rattle.frame_transport.specs.declared.format.Frame.{Frame as TheFrame};
ghost use Rattle.frame_transport.specs.declared.format.TheConstants.{HELLO};
ghost use Rattle.frame_transport.specs.declared.fault.FeedFault.{FeedFault as TheFault};
ghost use Rattle.receive_heap.specs.Layout.{IsFirstFit, IsLargest, IsPartitioned, IsWithout};
ghost use Rattle.receive_core.specs.Decoding.{IsDecodedCall, IsReading};
ghost use Rattle.receive_core.specs.ReceiverTraces.{ReceiverTrace as TheLife, Fated, IsTraceOf, empty_trace, after_piece, after_hello, after_fates, IsAnswerFor, stores_of_fate};
ghost use Rattle.receive_core.specs.Turns.{ReceiverState, IsFirstFrame, IsSplit, IsReady, IsTurnOf, IsCallPlaced, HasStayed};

use crate::arrival::{Arrival, DropCause};
use crate::decoded::{DecodedCall, Reading, read_frame, refusal};
use frame_transport::{
    Feed, FeedFault, Frame, HELLO, frame_is_unique, frames_join, split_is_unique,
};
use graph_place::{layout, store};
use mrpc_base::{Room, Stores};
use mrpc_table::{Memory, Table};
use policy_access::Access;
use receive_heap::{Extents, NotHeld};
use std::alloc::Global;
use std::marker::Model;

/// The receiver of a connection. Contracts see it as `ReceiverState` of `specs/Turns.antt`.
#[derive(Drop)]
pub struct Inbound {
    alloc: Global,
    conn: u32,
    feed: Feed,
    extents: Extents,
    // The call of the first frame, if it was decoded and waits for a hole.
    opened: Option<DecodedCall>,
}

impl Model for Inbound {
    ghost use Rattle.std.specs.Prelude.{◌≤◌};
    ghost use Rattle.mrpc_table.specs.declared.limits.TheConstants.{MAX_HEAP, MIN_HEAP};
    ghost use Rattle.receive_core.specs.Turns.{ReceiverState, IsSplit};

    ghost Value = { ReceiverState };

    ghost use Rattle.std.specs.Coded.{codes};
    ghost use Rattle.receive_core.specs.contracts.decoded.DecodedCall as o;

    ghost coded = { Prim.hlevel (codes, o.the_row.coded) };

    ghost view = { λ i. record { conn = i.conn; fed = i.feed; heap = i.extents; opened = i.opened } };

    ghost invariant = { λ i. (MIN_HEAP ≤ i.extents.words) × (i.extents.words ≤ MAX_HEAP) × IsSplit i.feed };
}

impl Inbound {
    /// The receiver of a connection, counted from 1, with a heap of `words` words, 4 to 65536.
    pub fn open(alloc: Global, conn: u32, words: u64) -> Result<Inbound, Memory>
        requires least { MIN_HEAP ≤ words }
        requires most { words ≤ MAX_HEAP }
        ensures conn { IfOk result (λ inbound. inbound.conn ≡ conn) }
        ensures fed { IfOk result (λ inbound. inbound.fed ≡ record { place = 0; bytes = []; behind = 0 }) }
        ensures size { IfOk result (λ inbound. inbound.heap.words ≡ words) }
        ensures hole { IfOk result (λ inbound. inbound.heap.holes ≡ record { at = 1; words = words - 1 } ∷ []) }
        ensures held { IfOk result (λ inbound. inbound.heap.held ≡ []) }
        ensures next { IfOk result (λ inbound. inbound.heap.next ≡ 1) }
        ensures ready { IfOk result (λ inbound. (T : TheTable) → IsReady T inbound) }
        ensures life { IfOk result (λ inbound. (T : TheTable) → IsTraceOf T empty_trace inbound) }
    {
        frame_is_unique();
        let extents = Extents::open(alloc, words)?;
        extents.partition();
        Ok(Inbound {
            alloc,
            conn,
            feed: Feed::new(alloc),
            extents,
            opened: None,
        })
    }

    /// Feeds the next piece of the stream, which must stay shorter than 2^63 bytes. Returns the first fault of the
    /// stream so far, like [`Feed::feed`]; frames before the fault still get their fates. `Memory` changes nothing.
    pub fn bytes(&mut self, piece: &[u8]) -> Result<(), FeedFault>
        requires { total_fed self.old.fed + length piece.now < 2 ^ 63 }

        // The piece extends the stream, and there is no fault so far.
        ensures ok { OnOk result (IsFedBy self.old.fed piece.now self.new.fed) }
        ensures clean { OnOk result (HasFaultSoFar self.old.fed.place (self.old.fed.bytes ++ piece.now) None) }

        // A fault is the first one of the stream including the piece.
        ensures fault { IfErr result (λ fault. (fault ≡ FeedFault.Memory)
            ⊎ HasFaultSoFar self.old.fed.place (self.old.fed.bytes ++ piece.now) (Some fault)) }
        ensures stops { IfErr result (λ fault. (fault ≡ FeedFault.Memory)
            ⊎ HasStoppedAt self.old.fed piece.now fault self.new.fed) }
        ensures memory { IsErrOf result FeedFault.Memory → self.new ≡ self.old }
        ensures again { (fault : TheFault) → HasFaultSoFar self.old.fed.place self.old.fed.bytes (Some fault)
            → result ≡ Err fault }

        // Its trace is extended: the piece is appended to the stream.
        ensures life { (T : TheTable) (life : TheLife) → IsTraceOf T life self.old
            → OnOk result (IsTraceOf T (after_piece life piece.now None) self.new) }
        ensures life_at_fault { (T : TheTable) (life : TheLife) → IsTraceOf T life self.old
            → IfErr result (λ fault. (fault ≡ FeedFault.Memory)
            ⊎ IsTraceOf T (after_piece life piece.now (Some fault)) self.new) }

        ensures total { total_fed self.new.fed ≤ total_fed self.old.fed + length piece.now }
        ensures conn { self.new.conn ≡ self.old.conn }
        ensures heap { self.new.heap ≡ self.old.heap }
        ensures ready { (T : TheTable) → IsReady T self.old → IsReady T self.new }
    {
        split_is_unique();
        frame_is_unique();
        frames_join();
        self.feed.feed(piece)
    }

    /// The first whole frame that waits, or `None`. Never allocates.
    pub fn first(&self) -> Option<&Frame>
        ensures some { IfSome result (λ frame. IsFirstFrame self.now.fed frame.now) }
        ensures none { IfNone result (IsPartial self.now.fed.bytes) }
    {
        first_of(&self.feed)
    }

    /// Takes the first whole frame if it is a hello, which then has no fate; as the first frame of the stream it
    /// opens the connection. Returns `None` if the first whole frame is another one, or none waits. Never allocates.
    pub fn take_hello(&mut self) -> Option<Frame>
        ensures hello { IfSome result (λ frame. frame.kind ≡ HELLO) }
        ensures taken { IfSome result (λ frame. IsNextFrame self.old.fed frame self.new.fed) }
        ensures none { IfNone result ((f : TheFrame) → IsFirstFrame self.old.fed f → f.kind ≢ HELLO) }
        ensures same { IfNone result (self.new ≡ self.old) }

        ensures conn { self.new.conn ≡ self.old.conn }
        ensures heap { self.new.heap ≡ self.old.heap }
        ensures total { total_fed self.new.fed ≡ total_fed self.old.fed }
        ensures ready { (T : TheTable) → IsReady T self.old → IsReady T self.new }

        // Its trace is extended, if no frame had a fate before.
        ensures life { IfSome result (λ frame. (T : TheTable) (life : TheLife) → IsTraceOf T life self.old
            → life.hello ≡ None → life.fates ≡ [] → IsTraceOf T (after_hello life frame) self.new) }
    {
        frame_is_unique();
        split_is_unique();
        frames_join();
        let frame = first_of(&self.feed)?;
        if frame.kind != HELLO {
            return None;
        }
        self.opened = None;
        Some(self.take_first())
    }

    /// Handles the first whole frame under a table and a policy, and returns what became of it. A message that
    /// arrives is placed in the heap, which must be this receiver's alone and have the size passed to
    /// [`Inbound::open`].
    ///
    /// The only error is `Memory`. The frame stays first and the heap is unchanged.
    pub fn turn<H: Stores>(
        &mut self,
        table: &Table,
        policy: Option<&Access>,
        heap: &mut H,
    ) -> Result<Arrival, Memory>
        requires valid { IsValid table.now }
        requires ready { IsReady table.now self.old }
        requires size { H.words heap.old ≡ self.old.heap.words }
        requires few { length (H.stores heap.old) ≤ 2 ^ 62 }
        requires blocks { self.old.heap.next < 2 ^ 32 }

        ensures turns { IfOk result (IsTurnOf table.now (option_copied policy.entry) self.old self.new
            (H.stores heap.old) (H.stores heap.new)) }
        ensures none { (result ≡ Ok Arrival.None) ↔ IsPartial self.old.fed.bytes }

        // Its trace is extended, and so are the stores to its heap.
        ensures life { (life : TheLife) → IsTraceOf table.now life self.old
            → IfOk result (λ arrival. (more : List Fated)
            × IsAnswerFor (option_copied policy.entry) arrival more
            × (H.stores heap.new ≡ H.stores heap.old ++ flat_map stores_of_fate more)
            × IsTraceOf table.now (after_fates life more) self.new) }
        ensures few_stores { length (H.stores heap.new) ≤ length (H.stores heap.old) + (self.old.heap.words - 1) }

        ensures memory { OnErr result (HasStayed self.old self.new) }
        ensures no_store { OnErr result (H.stores heap.new ≡ H.stores heap.old) }
        ensures life_stays { (life : TheLife) → IsTraceOf table.now life self.old
            → OnErr result (IsTraceOf table.now life self.new) }

        ensures total { total_fed self.new.fed ≡ total_fed self.old.fed }
        ensures conn { self.new.conn ≡ self.old.conn }
        ensures places { self.new.heap.words ≡ self.old.heap.words }
        ensures next { self.new.heap.next ≤ self.old.heap.next + 1 }
        ensures ready { IsReady table.now self.new }
        ensures words { H.words heap.new ≡ H.words heap.old }
        ensures same_heap { (first : H) → H.since first heap.old → H.since first heap.new }
    {
        frame_is_unique();
        split_is_unique();
        frames_join();
        let arrival = self.answer(table, policy, heap);
        self.partition();
        arrival
    }

    /// Reclaims a block by its number, like [`Extents::reclaim`]. Never allocates.
    pub fn reclaim(&mut self, block: u64) -> Result<(), NotHeld>
        ensures held { OnOk result (IsWithout block self.old.heap.held self.new.heap.held) }
        ensures size { self.new.heap.words ≡ self.old.heap.words }
        ensures next { self.new.heap.next ≡ self.old.heap.next }
        ensures not_held { IsErr result ↔ All (λ held. held.number ≢ block) self.old.heap.held }
        ensures number { IfErr result (λ fault. fault.number ≡ block) }
        ensures err { OnErr result (self.new ≡ self.old) }

        ensures conn { self.new.conn ≡ self.old.conn }
        ensures fed { self.new.fed ≡ self.old.fed }
        ensures ready { (T : TheTable) → IsReady T self.old → IsReady T self.new }

        // Its trace is unchanged.
        ensures life { (T : TheTable) (life : TheLife) → IsTraceOf T life self.old → IsTraceOf T life self.new }
    {
        let taken_back = self.extents.reclaim(block);
        self.partition();
        taken_back
    }

    /// The kind, method and number of the whole frame after `i` others without a fate, or `None` if no more wait.
    /// Never allocates.
    pub fn waiting(&self, i: u64) -> Option<(u8, u16, u32)>
        ensures some { IfSome result (λ shown. (frames : List TheFrame) (rest : List ℕ)
            → IsSplitOf self.now.fed.place self.now.fed.bytes frames rest
            → (f : TheFrame) × (slice_get frames i ≡ Some f) × (shown ≡ (f.kind, f.method, f.number))) }
        ensures none { IfNone result ((frames : List TheFrame) (rest : List ℕ)
            → IsSplitOf self.now.fed.place self.now.fed.bytes frames rest → slice_get frames i ≡ None) }
    {
        let frame = self.feed.peek(i as usize)?;
        Some((frame.kind, frame.method, frame.number))
    }

    /// How many of the fed bytes are in no whole frame. Never allocates.
    pub fn partial_len(&self) -> u64
        ensures { (frames : List TheFrame) (rest : List ℕ) → IsSplitOf self.now.fed.place self.now.fed.bytes frames rest
            → result ≡ length rest + self.now.fed.behind }
    {
        self.feed.partial_len()
    }

    /// How many bytes were fed. Never allocates.
    pub fn fed(&self) -> u64
        ensures { result ≡ total_fed self.now.fed }
    {
        self.feed.fed()
    }

    // A law; it does nothing. The invariant of the heap.
    fn partition(&self)
        ensures { IsPartitioned self.now.heap }
    {
        self.extents.partition();
    }

    // The body of `turn`.
    fn answer<H: Stores>(
        &mut self,
        table: &Table,
        policy: Option<&Access>,
        heap: &mut H,
    ) -> Result<Arrival, Memory>
        requires valid { IsValid table.now }
        requires ready { IsReady table.now self.old }
        requires size { H.words heap.old ≡ self.old.heap.words }
        requires few { length (H.stores heap.old) ≤ 2 ^ 62 }
        requires blocks { self.old.heap.next < 2 ^ 32 }
        ensures turns { IfOk result (IsTurnOf table.now (option_copied policy.entry) self.old self.new
            (H.stores heap.old) (H.stores heap.new)) }
        ensures none { (result ≡ Ok Arrival.None) ↔ IsPartial self.old.fed.bytes }
        ensures memory { OnErr result (HasStayed self.old self.new) }
        ensures no_store { OnErr result (H.stores heap.new ≡ H.stores heap.old) }
        ensures total { total_fed self.new.fed ≡ total_fed self.old.fed }
        ensures conn { self.new.conn ≡ self.old.conn }
        ensures places { self.new.heap.words ≡ self.old.heap.words }
        ensures next { self.new.heap.next ≤ self.old.heap.next + 1 }
        ensures ready { IsReady table.now self.new }
        ensures words { H.words heap.new ≡ H.words heap.old }
        ensures same_heap { (first : H) → H.since first heap.old → H.since first heap.new }
    {
        match self.read_first(table)? {
            None => Ok(Arrival::None),
            Some(Reading::Dropped(why)) => Ok(self.drop_first(why)),
            Some(Reading::Call(opened)) => self.judge_first(opened, table, policy, heap),
        }
    }

    // The first frame as decoded, or `None` if no whole frame waits. Its call is decoded once: it is kept while it
    // waits, and taken here.
    fn read_first(&mut self, table: &Table) -> Result<Option<Reading>, Memory>
        requires valid { IsValid table.now }
        requires ready { IsReady table.now self.old }
        ensures none { IfOk result (λ reading. IfNone reading (IsPartial self.old.fed.bytes × (self.new ≡ self.old))) }
        ensures some { IfOk result (λ reading. IfSome reading (λ r. (f : TheFrame) × IsFirstFrame self.old.fed f
            × IsReading table.now self.old.conn f r)) }
        ensures kept { IfOk result (λ reading. IfSome reading (λ r. self.new.opened ≡ None)) }
        ensures words { (MIN_HEAP ≤ self.new.heap.words) × (self.new.heap.words ≤ MAX_HEAP) }
        ensures stays { HasStayed self.old self.new }
        ensures first { OnErr result ((f : TheFrame) × IsFirstFrame self.old.fed f) }
        ensures memory { OnErr result (self.new ≡ self.old) }
    {
        let Some(frame) = first_of(&self.feed) else {
            return Ok(None);
        };
        if let Some(opened) = self.opened.take() {
            return Ok(Some(Reading::Call(opened)));
        }
        Ok(Some(read_frame(self.alloc, self.conn, frame, table)?))
    }

    // Handles the first frame, whose call was decoded.
    fn judge_first<H: Stores>(
        &mut self,
        opened: DecodedCall,
        table: &Table,
        policy: Option<&Access>,
        heap: &mut H,
    ) -> Result<Arrival, Memory>
        requires valid { IsValid table.now }
        requires opened { (f : TheFrame) × IsFirstFrame self.old.fed f
            × IsDecodedCall table.now self.old.conn f opened }
        requires none_kept { self.old.opened ≡ None }
        requires words { (MIN_HEAP ≤ self.old.heap.words) × (self.old.heap.words ≤ MAX_HEAP) }
        requires size { H.words heap.old ≡ self.old.heap.words }
        requires few { length (H.stores heap.old) ≤ 2 ^ 62 }
        requires blocks { self.old.heap.next < 2 ^ 32 }
        ensures turns { IfOk result (IsTurnOf table.now (option_copied policy.entry) self.old self.new
            (H.stores heap.old) (H.stores heap.new)) }
        ensures memory { OnErr result (HasStayed self.old self.new) }
        ensures no_store { OnErr result (H.stores heap.new ≡ H.stores heap.old) }
        ensures total { total_fed self.new.fed ≡ total_fed self.old.fed }
        ensures conn { self.new.conn ≡ self.old.conn }
        ensures places { self.new.heap.words ≡ self.old.heap.words }
        ensures next { self.new.heap.next ≤ self.old.heap.next + 1 }
        ensures ready { IsReady table.now self.new }
        ensures words { H.words heap.new ≡ H.words heap.old }
        ensures same_heap { (first : H) → H.since first heap.old → H.since first heap.new }
    {
        if let Some(why) = refusal(&opened, table, policy, heap.size()) {
            return Ok(self.drop_first(why));
        }
        match self.extents.fit(opened.words) {
            Some(at) => self.place_first(opened, at, table, heap),
            None => Ok(self.keep_waiting(opened)),
        }
    }

    // Takes the first frame, which must exist.
    fn take_first(&mut self) -> Frame
        requires { (f : TheFrame) × IsFirstFrame self.old.fed f }
        ensures frame { (f : TheFrame) → IsFirstFrame self.old.fed f → (result ≡ f)
            × IsNextFrame self.old.fed f self.new.fed }
        ensures total { total_fed self.new.fed ≡ total_fed self.old.fed }
        ensures conn { self.new.conn ≡ self.old.conn }
        ensures heap { self.new.heap ≡ self.old.heap }
        ensures opened { self.new.opened ≡ self.old.opened }
    {
        frame_is_unique();
        match self.feed.next() {
            Some(frame) => frame,
            None => unreachable!(),
        }
    }

    // Drops the first frame.
    fn drop_first(&mut self, why: DropCause) -> Arrival
        requires { (f : TheFrame) × IsFirstFrame self.old.fed f }
        ensures frame { (f : TheFrame) → IsFirstFrame self.old.fed f
            → (result ≡ Arrival.Dropped f.kind f.method f.number why) × IsNextFrame self.old.fed f self.new.fed }
        ensures total { total_fed self.new.fed ≡ total_fed self.old.fed }
        ensures conn { self.new.conn ≡ self.old.conn }
        ensures heap { self.new.heap ≡ self.old.heap }
        ensures opened { self.new.opened ≡ self.old.opened }
    {
        let frame = self.take_first();
        Arrival::Dropped {
            kind: frame.kind,
            method: frame.method,
            number: frame.number,
            why,
        }
    }

    // Keeps the call of the first frame until a hole is large enough.
    fn keep_waiting(&mut self, opened: DecodedCall) -> Arrival
        ensures waits { (largest : ℕ) × (result ≡ Arrival.Waiting opened.words largest)
            × IsLargest self.old.heap.holes largest }
        ensures stays { HasStayed self.old self.new }
        ensures opened { self.new.opened ≡ Some opened }
    {
        let need = opened.words;
        self.opened = Some(opened);
        Arrival::Waiting {
            need,
            largest: self.extents.largest(),
        }
    }

    // Places the call of the first frame in a block that starts at the first place of a hole. Allocates everything
    // before it stores the first word and takes the frame.
    fn place_first<H: Stores>(
        &mut self,
        opened: DecodedCall,
        at: u64,
        table: &Table,
        heap: &mut H,
    ) -> Result<Arrival, Memory>
        requires valid { IsValid table.now }
        requires opened { (f : TheFrame) × IsFirstFrame self.old.fed f
            × IsDecodedCall table.now self.old.conn f opened }
        requires fits { (place : ℕ) → IsFirstFit self.old.heap.holes opened.words place → place ≡ at }
        requires inside { (1 ≤ at) × (at + opened.words ≤ self.old.heap.words) }
        requires none_kept { self.old.opened ≡ None }
        requires size { H.words heap.old ≡ self.old.heap.words }
        requires few { length (H.stores heap.old) ≤ 2 ^ 62 }
        requires blocks { self.old.heap.next < 2 ^ 32 }
        ensures takes { IfOk result (λ arrival. (f : TheFrame) → IsFirstFrame self.old.fed f
            → IsDecodedCall table.now self.old.conn f opened
            → IsCallPlaced table.now self.old self.new f opened (H.stores heap.old) (H.stores heap.new) arrival) }
        ensures memory { OnErr result (HasStayed self.old self.new) }
        ensures no_store { OnErr result (H.stores heap.new ≡ H.stores heap.old) }
        ensures total { total_fed self.new.fed ≡ total_fed self.old.fed }
        ensures conn { self.new.conn ≡ self.old.conn }
        ensures places { self.new.heap.words ≡ self.old.heap.words }
        ensures next { self.new.heap.next ≤ self.old.heap.next + 1 }
        ensures opened { self.new.opened ≡ None }
        ensures words { H.words heap.new ≡ H.words heap.old }
        ensures same_heap { (first : H) → H.since first heap.old → H.since first heap.new }
    {
        let DecodedCall { call, words } = opened;
        let message = table.message_at(call.method, call.number);
        let placed = layout(self.alloc, &call.tree, table, message, at)?;
        if matches!(heap.room_stores(placed.words.len() as u64), Room::Memory) {
            return Err(Memory);
        }
        let Ok(block) = self.extents.take(words) else {
            return Err(Memory);
        };
        store(heap, &placed);
        let frame = self.take_first();
        Ok(Arrival::Arrived {
            kind: frame.kind,
            method: frame.method,
            number: frame.number,
            block,
            tree: call.tree,
        })
    }
}

// The first whole frame of a feed, if one waits.
fn first_of(feed: &Feed) -> Option<&Frame>
    requires { IsSplit feed.now }
    ensures some { IfSome result (λ frame. IsFirstFrame feed.now frame.now) }
    ensures none { IfNone result (IsPartial feed.now.bytes) }
{
    feed.peek(0)
}
