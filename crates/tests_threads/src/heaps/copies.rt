//! Copies of a message that a writer stores to concurrently.

use graph_copy::CopyResult;
use graph_form::Reason;
use mrpc_base::Stores;
use mrpc_table::{FieldValue, Table, Tree, Value};
use shared_heap::{Reader, Writer, open};
use stable_copy::copy_message;
use std::alloc::Global;
use std::marker::Model;
use std::process::Abort;
use std::sync::atomic::{AtomicBool, Ordering};
use std::thread::{Threads, join};
use table_text::read_table;

const NUMBER: &[u8] = b"message M\nfield 1 optional uint64 a\nmethod 0 S Get M M\n";

// A writer to a heap of four words.
struct Spinner {
    writer: Writer,
    number: u64,
}

impl Model for Spinner {
    ghost use Rattle.std.specs.Prelude.{◌≡◌, ℕ};

    ghost Value = { ℕ };

    ghost view = { λ s. s.number };

    ghost invariant = { λ s. s.writer.heap.words ≡ 4 };
}

// Written by hand, so that a drop is one call.
impl Drop for Spinner {
    fn drop(self) {
        let Spinner {
            writer: _writer,
            number: _,
        } = self;
    }
}

impl Spinner {
    // Stores the next number after the presence of field 1, and each eighth time a presence that no message
    // has.
    fn store(&mut self) {
        if self.writer.made() > 1 << 40 {
            return;
        }
        self.number = self.number.wrapping_add(1);
        self.writer.store(3, self.number);
        self.writer
            .store(2, if self.number % 8 == 0 { 2 } else { 1 });
    }

    // Stores ever greater numbers until it is stopped, and returns the last one.
    fn spin(&mut self, stop: &AtomicBool) -> u64 {
        for _ in 0..1u64 << 40 {
            self.store();
            if stop.load(Ordering::SeqCst) {
                break;
            }
        }
        self.number
    }
}

// The reader of that heap, and the table of its message.
struct Copier {
    reader: Reader,
    table: Table,
    copies: u64,
}

impl Model for Copier {
    ghost use Rattle.std.specs.Prelude.{◌≡◌, ◌<◌, ℕ, length};
    ghost use Rattle.mrpc_table.specs.Valid.{IsValid};

    ghost Value = { ℕ };

    ghost view = { λ c. c.copies };

    ghost invariant = { λ c. IsValid c.table × (0 < length c.table.messages) × (c.reader.heap.words ≡ 4) };
}

impl Drop for Copier {
    fn drop(self) {
        let Copier {
            reader: _reader,
            table: _table,
            copies: _,
        } = self;
    }
}

impl Copier {
    // Copies the message once.
    fn copy(&mut self, alloc: Global, seen: &mut CopyStats) {
        self.copies = self.copies.wrapping_add(1);
        match copy_message(alloc, &mut self.reader, &self.table, 0, 2, 2) {
            Ok(answer) => seen.see(&answer),
            Err(_) => seen.rising = false,
        }
    }

    // Copies it 2000 times.
    fn copy_often(&mut self, alloc: Global) -> CopyStats {
        let mut seen = CopyStats {
            last: 0,
            rising: true,
            torn: true,
        };
        for _ in 0..2000u32 {
            self.copy(alloc, &mut seen);
        }
        seen
    }
}

// Both ends of a new heap of a message with a number.
fn both_ends(rt: &impl Abort, alloc: Global) -> (Spinner, Copier) {
    let table = read_table(alloc, NUMBER).expect(rt, "a table");
    assert!(rt; !table.messages.is_empty());
    let (writer, reader) = open(alloc, 4).expect(rt, "memory");
    (
        Spinner { writer, number: 0 },
        Copier {
            reader,
            table,
            copies: 0,
        },
    )
}

// The results of copies of a message that is stored to concurrently.
#[derive(Clone, Copy)]
struct CopyStats {
    // The number of the last message that was copied, 0 if none was.
    last: u64,
    // Whether no copy was out of memory, and none had a lesser number than the one before.
    rising: bool,
    // Whether the others were malformed because of the presence that no message has.
    torn: bool,
}

impl CopyStats {
    fn see(&mut self, answer: &CopyResult) {
        match answer {
            CopyResult::Copied { tree, .. } => {
                let number = number_of(tree);
                self.rising &= self.last <= number;
                self.last = number;
            }
            CopyResult::Malformed {
                reason,
                place,
                value,
                ..
            } => {
                self.torn &= *reason == Reason::Presence && *place == 2 && *value == 2;
            }
        }
    }
}

fn number_of(tree: &Tree) -> u64 {
    match tree.fields.as_slice() {
        [(_, FieldValue::One(Value::Number(number)))] => *number,
        _ => 0,
    }
}

// Copies in one thread, then stops the other thread, which stores without end.
fn copy_beside_spinning<R: Threads + Sync>(
    rt: &R,
    alloc: Global,
    mut spinner: Spinner,
    mut copier: Copier,
) -> (CopyStats, u64) {
    let stop = AtomicBool::new(false);
    let told = &stop;
    join(
        rt,
        move || {
            let seen = copier.copy_often(alloc);
            told.store(true, Ordering::SeqCst);
            seen
        },
        move || spinner.spin(told),
    )
}

#[test]
fn a_writer_that_never_stops_is_copied(rt: HostRuntime) {
    let (spinner, copier) = both_ends(&rt, rt.alloc());
    let (seen, stored) = copy_beside_spinning(&rt, rt.alloc(), spinner, copier);
    assert!(rt; seen.rising);
    assert!(rt; seen.torn);
    assert!(rt; seen.last <= stored);
}
