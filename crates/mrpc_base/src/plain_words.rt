//! The words of a heap in memory, with stores that race with its reader's loads.

ghost use Rattle.std.specs.Prelude.{◌≡◌, ◌<◌, ◌≤◌, ◌+◌, ◌^◌, ℕ, [], ◌∷◌, ◌++◌, All, IfOk, IfSome, IsTrue, length};
ghost use Rattle.mrpc_base.specs.Heap.{word_after, stores_of, races_up_to, races_past, races_with, IsRoomChange, IsLoad};

use crate::log::Log;
use crate::races::Races;
use crate::stored_words::StoredWords;
use crate::{Room, Stores, Words};
use std::alloc::{AllocError, Global};
use std::marker::Model;

// Room for at least this many stores is made at once if they can be counted. It allocates nothing.
const ROOM_AT_ONCE: u64 = 1 << 16;

/// The words of a heap in memory. One holder loads and stores them, and races simulate the stores of others. Contracts
/// see a `Heap`: its size, every load and store so far, the scheduled races, and for how many loads and stores there is
/// room. It keeps only the words, so loads and stores allocate nothing, and there is room for as many as can be
/// counted.
///
/// A *submission* is a run of loads that ends with `finish_submission`. The first submission starts when the heap is
/// opened.
#[derive(Drop)]
pub struct PlainWords {
    words: StoredWords,
    loads: Log,
    races: Races,
    // How many loads earlier submissions made.
    finished: u64,
    load_room: u64,
    // In addition to the room that each scheduled race has reserved.
    store_room: u64,
}

impl Model for PlainWords {
    ghost use Rattle.std.specs.Prelude.{◌-◌, length};
    ghost use Rattle.mrpc_base.specs.Heap.{Heap};
    ghost use Rattle.mrpc_base.specs.Parts.{IsCountable};

    ghost Value = { Heap };

    ghost view = { λ h. record {
      size = h.words.size;
      loads = h.loads;
      stores = h.words.stores;
      begun = length h.loads - h.finished;
      races = h.races.races;
      load_room = h.load_room;
      store_room = h.store_room;
    } };

    ghost invariant = { λ h. IsCountable h.words h.races (length h.loads) h.finished h.load_room h.store_room };
}

// Whether this many more stores can be counted, in addition to those made and those of the scheduled races.
fn can_count(made: u64, waiting: u64, stores: u64) -> bool
    ensures { IsTrue result → made + waiting + stores < 2 ^ 64 }
{
    match made.checked_add(waiting) {
        Some(so_far) => so_far.checked_add(stores).is_some(),
        None => false,
    }
}

// Room for at least `stores` stores: `ROOM_AT_ONCE` if that is more and can be counted, so that room is seldom made.
// `None` if not even `stores` can be counted.
fn room_for(made: u64, waiting: u64, stores: u64) -> Option<u64>
    ensures enough { IfSome result (λ room. stores ≤ room) }
    ensures counted { IfSome result (λ room. made + waiting + room < 2 ^ 64) }
{
    if stores < ROOM_AT_ONCE && can_count(made, waiting, ROOM_AT_ONCE) {
        return Some(ROOM_AT_ONCE);
    }
    if can_count(made, waiting, stores) {
        Some(stores)
    } else {
        None
    }
}

// Makes the races of loads up to `number`, in order.
fn make_due(words: &mut StoredWords, races: &mut Races, number: u64)
    requires few { length words.old.stores + length races.old.races < 2 ^ 64 }
    requires in_heap { All (λ race. race.place < words.old.size) races.old.races }

    ensures stores { words.new.stores ≡ words.old.stores ++ stores_of (races_up_to number races.old.races) }
    ensures races { races.new.races ≡ races_past number races.old.races }
    ensures size { words.new.size ≡ words.old.size }
    ensures listed { races.new.listed ≡ races.old.listed }
    // Each race that was made is now a store.
    ensures counted { length words.new.stores + length races.new.races
        ≡ length words.old.stores + length races.old.races }
    ensures in_heap { All (λ race. race.place < words.new.size) races.new.races }
{
    while let Some((place, value)) = races.take_due(number) {
        words.store(place, value);
    }
}

// Makes all races, in order.
fn make_all(words: &mut StoredWords, races: &mut Races)
    requires few { length words.old.stores + length races.old.races < 2 ^ 64 }
    requires in_heap { All (λ race. race.place < words.old.size) races.old.races }

    ensures stores { words.new.stores ≡ words.old.stores ++ stores_of races.old.races }
    ensures races { races.new.races ≡ [] }
    ensures size { words.new.size ≡ words.old.size }
    ensures listed { races.new.listed ≡ races.old.listed }
    ensures counted { length words.new.stores ≡ length words.old.stores + length races.old.races }
{
    while let Some((place, value)) = races.take_first() {
        words.store(place, value);
    }
}

impl PlainWords {
    /// Opens a heap of `words` words, all 0.
    pub fn open(alloc: Global, words: u64) -> Result<PlainWords, AllocError>
        requires at_least { 4 ≤ words }
        requires at_most { words ≤ 65536 }

        ensures size { IfOk result (λ heap. heap.size ≡ words) }
        ensures loads { IfOk result (λ heap. heap.loads ≡ []) }
        ensures stores { IfOk result (λ heap. heap.stores ≡ []) }
        ensures begun { IfOk result (λ heap. heap.begun ≡ 0) }
        ensures races { IfOk result (λ heap. heap.races ≡ []) }
    {
        Ok(PlainWords {
            words: StoredWords::open(alloc, words as usize)?,
            loads: Log::new(),
            races: Races::new(alloc),
            finished: 0,
            load_room: 0,
            store_room: 0,
        })
    }

    /// How many loads there were.
    pub fn loads_made(&self) -> u64
        ensures { result ≡ length self.now.loads }
    {
        self.loads.len()
    }

    /// Schedules a store of `value` at `place` right before load number `load` of this submission, counted from 1. If
    /// the submission has fewer loads, the store is made at its end. Races are made in the order of their loads, and
    /// those of one load in the order of listing. A race that is listed after its load was made precedes the next load.
    ///
    /// The race reserves the room for its store here, and uses none of the room for other stores.
    pub fn race(&mut self, load: u64, place: u64, value: u64) -> Room
        requires from_one { 1 ≤ load }
        requires not_first { 1 ≤ place }
        requires in_heap { place < self.old.size }

        ensures made { result ≡ Room.Made
            → self.new.races ≡ races_with self.old.races (record { load = load; place = place; value = value }) }
        ensures memory { result ≡ Room.Memory → self.new ≡ self.old }

        ensures size { self.new.size ≡ self.old.size }
        ensures loads { self.new.loads ≡ self.old.loads }
        ensures stores { self.new.stores ≡ self.old.stores }
        ensures begun { self.new.begun ≡ self.old.begun }
        ensures load_room { self.new.load_room ≡ self.old.load_room }
        ensures store_room { self.new.store_room ≡ self.old.store_room }
    {
        let waiting = self.races.len() + 1;
        if !can_count(self.words.made(), waiting, self.store_room) {
            return Room::Memory;
        }
        self.races.list(load, place, value)
    }

    /// Ends this submission: makes the scheduled races, in order. The next load starts the next submission. It
    /// allocates nothing.
    pub fn finish_submission(&mut self)
        ensures stores { self.new.stores ≡ self.old.stores ++ stores_of self.old.races }
        ensures races { self.new.races ≡ [] }
        ensures begun { self.new.begun ≡ 0 }

        ensures size { self.new.size ≡ self.old.size }
        ensures loads { self.new.loads ≡ self.old.loads }
        ensures load_room { self.new.load_room ≡ self.old.load_room }
        ensures store_room { self.new.store_room ≡ self.old.store_room }
    {
        make_all(&mut self.words, &mut self.races);
        self.finished = self.loads.len();
    }
}

impl Words for PlainWords {
    ghost use Rattle.std.specs.Prelude.{Some};

    ghost size = { λ h. h.size };

    ghost loads = { λ h. h.loads };

    ghost stores = { λ h. Some h.stores };

    ghost room = { λ h. h.load_room };

    ghost use Rattle.mrpc_base.specs.Heap.{IsRoomChange, IsLoad};

    ghost after_room = { IsRoomChange };

    ghost after_load = { IsLoad };

    fn words(&self) -> u64
        ensures { result ≡ self.now.size }
    {
        self.words.size()
    }

    fn room_loads(&mut self, n: u64) -> Room
        ensures made { result ≡ Room.Made → n ≤ self.new.load_room }
        ensures enough { n ≤ self.old.load_room → result ≡ Room.Made }
        ensures memory { result ≡ Room.Memory → self.new ≡ self.old }
        ensures never_falls { self.old.load_room ≤ self.new.load_room }

        ensures size { self.new.size ≡ self.old.size }
        ensures loads { self.new.loads ≡ self.old.loads }
        ensures stores { self.new.stores ≡ self.old.stores }
        ensures begun { self.new.begun ≡ self.old.begun }
        ensures races { self.new.races ≡ self.old.races }
        ensures store_room { self.new.store_room ≡ self.old.store_room }
        ensures changes { IsRoomChange self.old self.new }
    {
        if n <= self.load_room {
            return Room::Made;
        }
        if self.loads.len().checked_add(n).is_none() {
            return Room::Memory;
        }
        self.load_room = n;
        Room::Made
    }

    fn load(&mut self, place: u64) -> u64
        requires in_heap { place < self.old.size }
        requires room { 0 < self.old.load_room }

        ensures loaded { self.new.loads ≡ self.old.loads ++ (place, result) ∷ [] }
        ensures lowered { self.old.load_room ≤ self.new.load_room + 1 }
        ensures size { self.new.size ≡ self.old.size }

        // The races up to this load are made first, and the load sees them.
        ensures stores { self.new.stores
            ≡ self.old.stores ++ stores_of (races_up_to (self.old.begun + 1) self.old.races) }
        ensures races { self.new.races ≡ races_past (self.old.begun + 1) self.old.races }
        ensures word { result ≡ word_after self.new.stores place }

        ensures begun { self.new.begun ≡ self.old.begun + 1 }
        ensures store_room { self.new.store_room ≡ self.old.store_room }
        ensures changes { IsLoad self.old place result self.new }
    {
        let number = self.loads.len() - self.finished + 1;
        make_due(&mut self.words, &mut self.races, number);
        let value = self.words.word(place);
        self.loads.append(place, value);
        self.load_room -= 1;
        value
    }
}

impl Stores for PlainWords {
    ghost use Rattle.std.specs.Prelude.{◌≡◌};

    ghost words = { λ h. h.size };

    ghost stores = { λ h. h.stores };

    ghost room = { λ h. h.store_room };

    // The reader's loads and the scheduled races are unchanged.
    ghost since = { λ old new. (new.size ≡ old.size) × (new.loads ≡ old.loads) × (new.begun ≡ old.begun)
        × (new.races ≡ old.races) × (new.load_room ≡ old.load_room) };

    fn size(&self) -> u64
        ensures { result ≡ self.now.size }
    {
        self.words.size()
    }

    fn made(&self) -> u64
        ensures { result ≡ length self.now.stores }
    {
        self.words.made()
    }

    fn room_stores(&mut self, n: u64) -> Room
        ensures made { result ≡ Room.Made → n ≤ self.new.store_room }
        ensures enough { n ≤ self.old.store_room → result ≡ Room.Made }
        ensures memory { result ≡ Room.Memory → self.new ≡ self.old }
        ensures never_falls { self.old.store_room ≤ self.new.store_room }

        ensures size { self.new.size ≡ self.old.size }
        ensures loads { self.new.loads ≡ self.old.loads }
        ensures stores { self.new.stores ≡ self.old.stores }
        ensures begun { self.new.begun ≡ self.old.begun }
        ensures races { self.new.races ≡ self.old.races }
        ensures load_room { self.new.load_room ≡ self.old.load_room }
    {
        if n <= self.store_room {
            return Room::Made;
        }
        match room_for(self.words.made(), self.races.len(), n) {
            Some(room) => {
                self.store_room = room;
                Room::Made
            }
            None => Room::Memory,
        }
    }

    fn store(&mut self, place: u64, value: u64)
        requires not_first { 1 ≤ place }
        requires in_heap { place < self.old.size }
        requires few { length self.old.stores < 2 ^ 63 }
        requires room { 0 < self.old.store_room }

        ensures stores { self.new.stores ≡ self.old.stores ++ (place, value) ∷ [] }
        ensures lowered { self.old.store_room ≤ self.new.store_room + 1 }

        ensures size { self.new.size ≡ self.old.size }
        ensures loads { self.new.loads ≡ self.old.loads }
        ensures begun { self.new.begun ≡ self.old.begun }
        ensures races { self.new.races ≡ self.old.races }
        ensures load_room { self.new.load_room ≡ self.old.load_room }
    {
        self.words.store(place, value);
        self.store_room -= 1;
    }
}
