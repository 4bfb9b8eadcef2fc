//! What a loaded word leads to: it is judged, and the words that it leads to are expected next.

ghost use Rattle.std.specs.Prelude.{◌≡◌, ◌≤◌, ◌<◌, ◌+◌, ◌*◌, ◌^◌, ◌↔◌, [], ◌∷◌, IfOk, OnOk, IsTrue, if◌then◌else◌};
ghost use Rattle.std.specs.Str.{IsUtf8};
ghost use Rattle.mrpc_table.specs.Normal.{fields_of};
ghost use Rattle.mrpc_table.specs.Valid.{IsValid};
ghost use Rattle.mrpc_table.specs.declared.limits.TheConstants.{MAX_HEAP};
ghost use Rattle.mrpc_table.specs.declared.table.Table.{Table};
ghost use Rattle.graph_form.specs.Roles.{run_word, link, case_word, count, entry_count, expected_after, elements_from, entries_from};
ghost use Rattle.graph_form.specs.Placed.{IsValidWord};
ghost use Rattle.graph_copy.specs.Expected.{layout_role, next_word, IsInHeap};
ghost use Rattle.graph_copy.specs.Follows.{IsFollowed, AreExpectedFirst};
ghost use Rattle.graph_copy.specs.Judged.{IsReasonUnless};

use crate::judge::first_invalid_reason;
use crate::look_up::field_of;
use crate::role::{Role, plain_role};
use crate::walk::{Next, RunWord, Walk, WalkFrame};
use graph_form::{Reason, size_words};
use mrpc_table::{Kind, Memory, Table};

impl Walk {
    // Advances past a word with this value. If the word is invalid, returns the first reason.
    pub(crate) fn follow(
        &mut self,
        table: &Table,
        next: Next,
        value: u64,
    ) -> Result<Option<Reason>, Memory>
        requires valid { IsValid table.now }
        requires size { self.old.size ≤ MAX_HEAP }
        requires no_run { self.old.run ≡ None }
        requires fits { IsInHeap self.old.size (next_word table.now self.old.bytes.items next) }
        ensures follows { IfOk result
            (IsFollowed table.now (next_word table.now self.old.bytes.items next) value self.old self.new) }
        ensures size { self.new.size ≡ self.old.size }
    {
        match next {
            Next::Word { role, place } => self.follow_word(table, role, place, value),
            Next::Run(run) => self.follow_run(run, value),
        }
    }

    fn follow_word(
        &mut self,
        table: &Table,
        role: Role,
        place: u64,
        value: u64,
    ) -> Result<Option<Reason>, Memory>
        requires valid { IsValid table.now }
        requires size { self.old.size ≤ MAX_HEAP }
        requires no_run { self.old.run ≡ None }
        requires fits { IsInHeap self.old.size (layout_role table.now role, place) }
        ensures follows { IfOk result (IsFollowed table.now (layout_role table.now role, place) value self.old self.new) }
        ensures size { self.new.size ≡ self.old.size }
    {
        if let Some(reason) = first_invalid_reason(table, self.size, role, value) {
            return Ok(Some(reason));
        }
        self.lead(table, role, place, value)?;
        Ok(None)
    }

    // Expects the words that a valid word leads to.
    fn lead(&mut self, table: &Table, role: Role, place: u64, value: u64) -> Result<(), Memory>
        requires valid { IsValid table.now }
        requires size { self.old.size ≤ MAX_HEAP }
        requires no_run { self.old.run ≡ None }
        requires fits { IsInHeap self.old.size (layout_role table.now role, place) }
        requires fine { IsValidWord table.now self.old.size (layout_role table.now role) value }
        ensures expected { OnOk result
            (AreExpectedFirst table.now (expected_after table.now (layout_role table.now role) place value) self.old self.new) }
        ensures size { self.new.size ≡ self.old.size }
    {
        match role {
            Role::Value(_) => Ok(()),
            Role::Presence(kind) => self.expect_if(value != 0, Role::Value(kind), place),
            Role::RunLength(kind) => {
                self.expect_if(value != 0, Role::RunAddress { kind, bytes: value }, place)
            }
            Role::RunPresence(kind) => {
                let bytes = value.saturating_sub(1);
                self.expect_if(value > 1, Role::RunAddress { kind, bytes }, place)
            }
            Role::RunAddress { kind, bytes } => {
                self.begin_run(kind, bytes, value);
                Ok(())
            }
            Role::Link {
                message,
                depth,
                needed,
            } => self.lead_link(table, message, depth, needed, value),
            Role::Count { kind, depth } => self.lead_count(kind, depth, place, value),
            Role::Elements { kind, count, depth } => self.expect_elements(
                kind, count, depth, value,
            ),
            Role::EntryCount { key, kind, depth } => {
                self.lead_entry_count(key, kind, depth, place, value)
            }
            Role::Entries {
                key,
                kind,
                count,
                depth,
            } => self.expect_entries(key, kind, count, depth, value),
            Role::Case {
                message,
                oneof,
                depth,
            } => self.lead_case(table, message, oneof, depth, place, value),
        }
    }

    // Expects the word after a place, or nothing.
    fn expect_if(&mut self, is_there: bool, role: Role, place: u64) -> Result<(), Memory>
        requires room { place + 1 < 2 ^ 64 }
        requires no_run { self.old.run ≡ None }
        ensures expected { OnOk result
            ((T : Table) → AreExpectedFirst T (if is_there then (layout_role T role, place + 1) ∷ [] else []) self.old self.new) }
        ensures size { self.new.size ≡ self.old.size }
    {
        if is_there {
            self.push(WalkFrame::Word {
                role,
                place: place + 1,
            })?;
        }
        Ok(())
    }

    fn begin_run(&mut self, kind: Kind, bytes: u64, place: u64)
        requires { self.old.run ≡ None }
        ensures expected { (T : Table) → AreExpectedFirst T ((run_word kind bytes [], place) ∷ []) self.old self.new }
        ensures size { self.new.size ≡ self.old.size }
    {
        self.bytes.clear();
        self.run = Some(RunWord {
            kind,
            left: bytes,
            place,
        });
    }

    fn lead_link(
        &mut self,
        table: &Table,
        message: u32,
        depth: u32,
        needed: bool,
        value: u64,
    ) -> Result<(), Memory>
        requires valid { IsValid table.now }
        requires size { self.old.size ≤ MAX_HEAP }
        requires no_run { self.old.run ≡ None }
        requires fine { IsValidWord table.now self.old.size (link message depth needed) value }
        ensures expected { OnOk result
            (AreExpectedFirst table.now (expected_after table.now (link message depth needed) 0 value) self.old self.new) }
        ensures size { self.new.size ≡ self.old.size }
    {
        if value == 0 {
            return Ok(());
        }
        let words = size_words(table, message);
        self.expect_node(table, message, depth + 1, value, words)
    }

    fn lead_count(&mut self, kind: Kind, depth: u32, place: u64, value: u64) -> Result<(), Memory>
        requires room { place + 1 < 2 ^ 64 }
        requires no_run { self.old.run ≡ None }
        ensures expected { OnOk result
            ((T : Table) → AreExpectedFirst T (expected_after T (count kind depth) place value) self.old self.new) }
        ensures size { self.new.size ≡ self.old.size }
    {
        let count = value;
        self.expect_if(value != 0, Role::Elements { kind, count, depth }, place)
    }

    fn lead_entry_count(
        &mut self,
        key: Kind,
        kind: Kind,
        depth: u32,
        place: u64,
        value: u64,
    ) -> Result<(), Memory>
        requires room { place + 1 < 2 ^ 64 }
        requires no_run { self.old.run ≡ None }
        ensures expected { OnOk result
            ((T : Table) → AreExpectedFirst T (expected_after T (entry_count key kind depth) place value) self.old self.new) }
        ensures size { self.new.size ≡ self.old.size }
    {
        let count = value;
        let role = Role::Entries {
            key,
            kind,
            count,
            depth,
        };
        self.expect_if(value != 0, role, place)
    }

    fn expect_elements(
        &mut self,
        kind: Kind,
        left: u64,
        depth: u32,
        place: u64,
    ) -> Result<(), Memory>
        requires { self.old.run ≡ None }
        ensures expected { OnOk result ((T : Table) → AreExpectedFirst T (elements_from left kind depth place) self.old self.new) }
        ensures size { self.new.size ≡ self.old.size }
    {
        self.push(WalkFrame::Elements {
            kind,
            left,
            depth,
            place,
        })?;
        Ok(())
    }

    fn expect_entries(
        &mut self,
        key: Kind,
        kind: Kind,
        left: u64,
        depth: u32,
        place: u64,
    ) -> Result<(), Memory>
        requires { self.old.run ≡ None }
        ensures expected { OnOk result
            ((T : Table) → AreExpectedFirst T (entries_from left key kind depth place) self.old self.new) }
        ensures size { self.new.size ≡ self.old.size }
    {
        self.push(WalkFrame::Entries {
            key,
            kind,
            left,
            depth,
            place,
        })?;
        Ok(())
    }

    fn lead_case(
        &mut self,
        table: &Table,
        message: u32,
        oneof: u32,
        depth: u32,
        place: u64,
        value: u64,
    ) -> Result<(), Memory>
        requires valid { IsValid table.now }
        requires room { place + 1 < 2 ^ 64 }
        requires no_run { self.old.run ≡ None }
        requires fine { IsValidWord table.now self.old.size (case_word (fields_of table.now message) oneof depth) value }
        ensures expected { OnOk result
            (AreExpectedFirst table.now (expected_after table.now (case_word (fields_of table.now message) oneof depth) place value)
            self.old self.new) }
        ensures size { self.new.size ≡ self.old.size }
    {
        if value == 0 {
            return Ok(());
        }
        match field_of(table, message, value) {
            Some(field) => {
                let role = plain_role(field.kind, depth, true);
                self.expect_if(true, role, place)
            }
            None => Ok(()),
        }
    }

    // A word of a run: padding bytes must be 0. The bytes of a string are judged at its last word.
    fn follow_run(&mut self, run: RunWord, value: u64) -> Result<Option<Reason>, Memory>
        requires no_run { self.old.run ≡ None }
        requires room { run.place + 1 < 2 ^ 64 }
        ensures follows { IfOk result (λ found. (T : Table)
            → IsFollowed T (run_word run.kind run.left self.old.bytes.items, run.place) value self.old self.new found) }
        ensures size { self.new.size ≡ self.old.size }
    {
        if has_spare_bytes(run.left, value) {
            return Ok(Some(Reason::Narrow));
        }
        let word = value.to_le_bytes();
        if run.left > 8 {
            self.bytes.extend_from_slice(&word)?;
            self.run = Some(RunWord {
                kind: run.kind,
                left: run.left - 8,
                place: run.place + 1,
            });
            return Ok(None);
        }
        self.bytes.extend_from_slice(&word[..run.left as usize])?;
        Ok(judge_run(run.kind, self.bytes.as_slice()))
    }
}

// Whether a byte of the word past the remaining bytes of a run isn't 0.
fn has_spare_bytes(left: u64, value: u64) -> bool
    ensures { IsTrue result ↔ ((left < 8) × (2 ^ (8 * left) ≤ value)) }
{
    left < 8 && value >= 1 << (8 * left)
}

// A string must be UTF-8.
fn judge_run(kind: Kind, bytes: &[u8]) -> Option<Reason>
    ensures { IsReasonUnless (kind ≡ Kind.Text → IsUtf8 bytes.now) Reason.Utf8 result }
{
    match kind {
        Kind::Text => {
            if str::from_utf8(bytes).is_ok() {
                None
            } else {
                Some(Reason::Utf8)
            }
        }
        _ => None,
    }
}
