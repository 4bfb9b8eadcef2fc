//! Messages that are decoded and encoded, placed in a heap, and copied back.

use crate::given::{NUMBERS, SMALL, with_number};
use crate::messages::{Placement, Scene};
use mrpc_table::Tree;
use std::alloc::Global;
use std::process::Abort;
use wire_decode::{meaning_is_normal, meaning_of_encoding};

// Laws do nothing.
fn call_laws() {
    meaning_is_normal();
    meaning_of_encoding();
}

const PACKED: &[u8] = b"\x32\x06\x03\x8e\x02\x9e\xa7\x05";

// The assertions of each test are in a function that borrows, so that no `assert!` is followed by a drop.
fn assert_encodes(rt: &impl Abort, alloc: Global, scene: &Scene, tree: &Tree) {
    assert!(rt; scene.encoded_len(rt, tree) == 8);
    assert!(rt; scene.encode(rt, alloc, tree).as_slice() == PACKED);
}

#[test]
fn packed_numbers_are_decoded_and_encoded(rt: HostRuntime) {
    let scene = Scene::open(&rt, rt.alloc(), NUMBERS);
    let tree = scene.decode(&rt, rt.alloc(), PACKED);
    assert_encodes(&rt, rt.alloc(), &scene, &tree);
    call_laws();
}

const FIVE_FIELDS: &[u8] = b"message C
field 1 optional string a
field 2 oneof:x uint64 b
field 3 oneof:y bool c
field 4 oneof:x bool d
field 5 map:bool bytes e
method 0 S Get C C
";

// The slot of a field starts at this word.
fn assert_slot(rt: &impl Abort, scene: &Scene, field: u32, word: u64) {
    assert!(rt; scene.slot_of(field) == Some(word));
}

fn assert_slots(rt: &impl Abort, scene: &Scene) {
    assert_slot(rt, scene, 1, 0);
    assert_slot(rt, scene, 5, 2);
    assert_slot(rt, scene, 2, 4);
    assert_slot(rt, scene, 4, 4);
    assert_slot(rt, scene, 3, 7);
    assert!(rt; scene.slot_of(6).is_none());
    assert!(rt; scene.size_words() == 10);
}

// The oneofs come after the fields with slots of their own.
#[test]
fn a_field_takes_two_words_and_a_oneof_three(rt: HostRuntime) {
    let scene = Scene::open(&rt, rt.alloc(), FIVE_FIELDS);
    assert_slots(&rt, &scene);
}

fn assert_one_store(rt: &impl Abort, scene: &mut Scene, placement: &Placement) {
    assert!(rt; placement.words == 2);
    assert!(rt; placement.placed.address == 2);
    assert!(rt; placement.encoding.as_slice() == b"\x08\x96\x01".as_slice());
    assert!(rt; placement.placed.words.as_slice() == [(2u64, 150u64)].as_slice());
    assert!(rt; scene.stored() == 1);
    assert!(rt; scene.holds(rt, placement.placed.words.as_slice()));
}

#[test]
fn a_number_takes_one_store(rt: HostRuntime) {
    let mut scene = Scene::open(&rt, rt.alloc(), SMALL);
    let tree = with_number(&rt, rt.alloc(), 150);
    let placement = scene.place(&rt, rt.alloc(), &tree, 2);
    assert_one_store(&rt, &mut scene, &placement);
}

// Each kind of slot once, and a message in itself.
const SLOTS: &[u8] = b"message C
field 1 plain string a
field 2 repeated message:C b
field 3 oneof:x uint64 c
field 4 packed bool d
field 5 map:string bytes e
field 6 optional uint64 f
field 7 oneof:x message:C g
field 8 oneof:y string h
field 9 optional bytes i
field 10 repeated string j
method 0 S Get C C
";

const OF_EACH_KIND: &[u8] =
    b"\x0a\x09testing89\x12\x02\x18\x00\x12\x03\x0a\x01z\x22\x03\x01\x00\x01\x2a\x06\x0a\x00\x12\x02pq\
    \x2a\x05\x0a\x01k\x12\x00\x30\x00\x3a\x04\x42\x02hi\x42\x00\x4a\x00\x52\x01x\x52\x00";

fn assert_placed(rt: &impl Abort, scene: &Scene, placement: &Placement) {
    assert!(rt; placement.words == 20 + 2 + 43 + 3 + 10 + 21 + 5);
    assert!(rt; placement.encoding.as_slice() == OF_EACH_KIND);
    assert!(rt; scene.stored() == placement.placed.words.len());
}

// It is copied with one load for each of its stores, and each load reads what was stored.
fn assert_copied(rt: &impl Abort, alloc: Global, scene: &mut Scene, placement: &Placement) {
    assert!(rt; scene.copied(rt, alloc, 3).as_slice() == OF_EACH_KIND);
    assert!(rt; scene.loaded() == scene.stored());
    assert!(rt; scene.holds(rt, placement.placed.words.as_slice()));
}

#[test]
fn each_kind_of_slot_is_placed(rt: HostRuntime) {
    let mut scene = Scene::open(&rt, rt.alloc(), SLOTS);
    let placement = scene.place_decoded(&rt, rt.alloc(), OF_EACH_KIND, 3);
    assert_placed(&rt, &scene, &placement);
    assert_copied(&rt, rt.alloc(), &mut scene, &placement);
}
