//! The list of the words of a message, each with its place.

ghost use Rattle.std.specs.Prelude.{◌≡◌, ◌≢◌, ◌≤◌, ◌<◌, ◌+◌, ◌*◌, ◌^◌, ℕ, Bool, true, false, List, [], ◌∷◌, ◌++◌, length, IfOk, OnOk, Some};
ghost use Rattle.std.specs.Str.{IsUtf8};
ghost use Rattle.mrpc_table.specs.Node.{Node, one, content_at};
ghost use Rattle.mrpc_table.specs.Normal.{fields_of, field_at, HasFields, HasOneMemberEach, IsItem, AreItems, ArePairs, depth, content_depth, item_depth, items_depth, pairs_depth, kind_at};
ghost use Rattle.mrpc_table.specs.Valid.{IsValid, IsField};
ghost use Rattle.mrpc_table.specs.View.{item_of, items_of, pairs_of, content_of};
ghost use Rattle.mrpc_table.specs.declared.limits.TheConstants.{MAX_DEPTH};
ghost use Rattle.mrpc_table.specs.declared.table.Kind.{Kind};
ghost use Rattle.mrpc_table.specs.declared.table.Field.{Field};
ghost use Rattle.mrpc_table.specs.declared.table.Table.{Table};
ghost use Rattle.graph_form.specs.Roles.{Expected, elements_address, entries_address, case_word, plain_role, optional_role, slot_role, slots_from, cases_from, node_words, own_slots, oneof_count, is_member, element_words, run_words};
ghost use Rattle.graph_form.specs.Forgotten.{run_at, slot_content, slots_tree, with_field, with_member, elements_at, entries_at, tree_of};
ghost use Rattle.graph_place.specs.Laid.{HasPut, HasPutWord, HasBegun, IsSlotOf, pass_of, part, members, optional_content_words, listed, IsMemberOf, IsContentFor, IsNotMessage, run_expected, HasBytes};
ghost use Rattle.graph_place.specs.Size.{tree_words, fields_words, content_words, item_words, many_words, pairs_words, run_words_of};

use crate::look_up::{kind_of, members_of, value_of};
use graph_form::{element_words, is_member, oneof_count, run_words, size_words};
use mrpc_table::{Entries, Field, FieldValue, Kind, Label, Memory, Table, Tree, Value, Values};
use std::alloc::Global;

// The words so far, in load order, and the first free place.
#[derive(Drop)]
pub(crate) struct Builder {
    // Each a place and a value.
    pub words: Vec<(u64, u64)>,
    pub free: u64,
}

impl Builder {
    // No words, with capacity for `room`.
    pub(crate) fn new(alloc: Global, free: u64, room: u64) -> Result<Builder, Memory>
        ensures words { IfOk result (λ builder. builder.words.items ≡ []) }
        ensures free { IfOk result (λ builder. builder.free ≡ free) }
    {
        Ok(Builder {
            words: Vec::with_capacity(alloc, room as usize)?,
            free,
        })
    }

    // Appends a word.
    fn put(&mut self, place: u64, value: u64) -> Result<(), Memory>
        ensures words { OnOk result (self.new.words.items ≡ self.old.words.items ++ (place, value) ∷ []) }
        ensures free { self.new.free ≡ self.old.free }
    {
        self.words.push((place, value))?;
        Ok(())
    }

    // Reserves `words` places and returns the first.
    fn take(&mut self, words: u64) -> u64
        requires { self.old.free + words < 2 ^ 64 }
        ensures first { result ≡ self.old.free }
        ensures free { self.new.free ≡ self.old.free + words }
        ensures words { self.new.words ≡ self.old.words }
    {
        let place = self.free;
        self.free += words;
        place
    }

    // A message: the slots of its fields, then those of its oneofs, each with its content.
    #[cycle(builder)]
    pub(crate) fn node(&mut self, table: &Table, message: u32, tree: &Tree) -> Result<(), Memory>
        requires valid { IsValid table.now }
        requires fields { HasFields table.now (fields_of table.now message) 0 tree.now }
        requires oneofs { HasOneMemberEach (fields_of table.now message) tree.now }
        requires from_one { 1 ≤ self.old.free }
        requires room { self.old.free + tree_words table.now message tree.now < 2 ^ 64 }
        ensures free { OnOk result (self.new.free ≡ self.old.free + tree_words table.now message tree.now) }
        ensures puts { OnOk result ((H level : ℕ) → self.new.free ≤ H → level + depth tree.now ≤ MAX_DEPTH + 1
            → HasPut table.now H
            (part (node_words table.now message level self.old.free) (λ P. tree_of table.now message P ≡ tree.now))
            (pass_of self.old self.new self.old.free self.old.free)) }
    {
        let at = self.take(size_words(table, message));
        let place = self.slots(table, message, tree, at)?;
        self.cases(table, message, tree, place)
    }

    // The slots of the fields that aren't oneof members, starting at a place. Returns the place after them.
    #[cycle(builder)]
    fn slots(&mut self, table: &Table, message: u32, tree: &Tree, at: u64) -> Result<u64, Memory>
        requires valid { IsValid table.now }
        requires fields { HasFields table.now (fields_of table.now message) 0 tree.now }
        requires from_one { 1 ≤ at }
        requires slots { at + 2 * length (own_slots (fields_of table.now message)) ≤ self.old.free }
        requires room { self.old.free + fields_words table.now (fields_of table.now message) tree.now < 2 ^ 64 }
        ensures place { IfOk result (λ place. place ≡ at + 2 * length (own_slots (fields_of table.now message))) }
        ensures free { OnOk result (self.new.free
            + fields_words table.now (fields_of table.now message) (members (fields_of table.now message) tree.now)
            ≡ self.old.free + fields_words table.now (fields_of table.now message) tree.now) }
        ensures puts { OnOk result (let fs = fields_of table.now message in
            (H level : ℕ) (others : Expected) → self.new.free ≤ H → level + depth tree.now ≤ MAX_DEPTH + 1
            → HasBegun table.now H
            (part (slots_from (own_slots fs) level at ++ others)
            (λ P. slots_tree table.now fs (own_slots fs) P ≡ tree.now))
            (part others (λ Q. slots_tree table.now fs [] Q ≡ members fs tree.now))
            (pass_of self.old self.new at (at + 2 * length (own_slots fs)))) }
    {
        let fields = table.fields(message);
        let mut place = at;
        for field in fields {
            place = self.field(table, field, tree, place)?;
        }
        Ok(place)
    }

    // The slot of a field, if it has one of its own. Returns the place after it.
    #[cycle(builder)]
    fn field(
        &mut self,
        table: &Table,
        field: &Field,
        tree: &Tree,
        place: u64,
    ) -> Result<u64, Memory>
        requires valid { IsValid table.now }
        requires fields { (fs : List Field) × HasFields table.now fs 0 tree.now
            × (field_at fs field.now.number ≡ Some field.now) }
        requires field { (oneofs : ℕ) × IsField table.now oneofs field.now }
        requires from_one { 1 ≤ place }
        requires slot { is_member field.now.label ≡ false → place + 2 ≤ self.old.free }
        requires room { is_member field.now.label ≡ false
            → self.old.free + optional_content_words table.now field.now.kind (content_at tree.now field.now.number) < 2 ^ 64 }
        ensures member { is_member field.now.label ≡ true
            → IfOk result (λ next. (next ≡ place) × (self.new ≡ self.old)) }
        ensures place { is_member field.now.label ≡ false → IfOk result (λ next. next ≡ place + 2) }
        ensures free { is_member field.now.label ≡ false → OnOk result (self.new.free
            ≡ self.old.free + optional_content_words table.now field.now.kind (content_at tree.now field.now.number)) }
        ensures puts { is_member field.now.label ≡ false → OnOk result ((H level : ℕ)
            → self.new.free ≤ H → level + depth tree.now ≤ MAX_DEPTH + 1
            → HasPutWord table.now H (slot_role field.now.label field.now.kind level, place)
            (pass_of self.old self.new place (place + 2))
            (λ w. slot_content table.now field.now.label field.now.kind w ≡ content_at tree.now field.now.number)) }
    {
        if is_member(field.label) {
            return Ok(place);
        }
        match tree.content(field.number) {
            Some(content) => {
                self.slot(table, field.label, field.kind, content, place)?;
                Ok(place + 2)
            }
            None => {
                self.put(place, 0)?;
                Ok(place + 2)
            }
        }
    }

    // The slots of the oneofs, starting at a place.
    #[cycle(builder)]
    fn cases(&mut self, table: &Table, message: u32, tree: &Tree, at: u64) -> Result<(), Memory>
        requires valid { IsValid table.now }
        requires fields { HasFields table.now (fields_of table.now message) 0 tree.now }
        requires oneofs { HasOneMemberEach (fields_of table.now message) tree.now }
        requires from_one { 1 ≤ at }
        requires slots { at + 3 * oneof_count table.now message ≤ self.old.free }
        requires room { self.old.free
            + fields_words table.now (fields_of table.now message) (members (fields_of table.now message) tree.now)
            < 2 ^ 64 }
        ensures free { OnOk result (self.new.free ≡ self.old.free
            + fields_words table.now (fields_of table.now message) (members (fields_of table.now message) tree.now)) }
        ensures puts { OnOk result (let fs = fields_of table.now message in
            (H level : ℕ) → self.new.free ≤ H → level + depth tree.now ≤ MAX_DEPTH + 1
            → HasPut table.now H
            (part (cases_from (oneof_count table.now message) fs 0 level at)
            (λ P. slots_tree table.now fs [] P ≡ members fs tree.now))
            (pass_of self.old self.new at (at + 3 * oneof_count table.now message))) }
    {
        let members = members_of(table, message, tree);
        let mut place = at;
        for oneof in 0..oneof_count(table, message) {
            self.case(table, message, tree, members[oneof as usize], place)?;
            place += 3;
        }
        Ok(())
    }

    // The slot of a oneof with a member's number, or with no member if it is 0.
    #[cycle(builder)]
    fn case(
        &mut self,
        table: &Table,
        message: u32,
        tree: &Tree,
        member: u32,
        place: u64,
    ) -> Result<(), Memory>
        requires valid { IsValid table.now }
        requires fields { HasFields table.now (fields_of table.now message) 0 tree.now }
        requires member { (oneof : ℕ) × IsMemberOf (fields_of table.now message) oneof tree.now member }
        requires from_one { 1 ≤ place }
        requires slot { place + 3 ≤ self.old.free }
        requires room { self.old.free
            + optional_content_words table.now (kind_at (fields_of table.now message) member) (content_at tree.now member)
            < 2 ^ 64 }
        ensures free { OnOk result (self.new.free ≡ self.old.free
            + optional_content_words table.now (kind_at (fields_of table.now message) member) (content_at tree.now member)) }
        ensures puts { OnOk result ((H level oneof : ℕ) → self.new.free ≤ H → level + depth tree.now ≤ MAX_DEPTH + 1
            → IsMemberOf (fields_of table.now message) oneof tree.now member
            → HasPutWord table.now H (case_word (fields_of table.now message) oneof level, place)
            (pass_of self.old self.new place (place + 3))
            (λ w. (t : Node) → with_member table.now (fields_of table.now message) w t
            ≡ with_field member (content_at tree.now member) t)) }
    {
        self.put(place, u64::from(member))?;
        if member == 0 {
            return Ok(());
        }
        match value_of(tree, member) {
            Some(value) => self.item(table, kind_of(table, message, member), value, place + 1),
            None => Ok(()),
        }
    }

    // The slot of a field with this content.
    #[cycle(builder)]
    fn slot(
        &mut self,
        table: &Table,
        label: Label,
        kind: Kind,
        content: &FieldValue,
        place: u64,
    ) -> Result<(), Memory>
        requires valid { IsValid table.now }
        requires own { is_member label ≡ false }
        requires content { IsContentFor table.now label kind (content_of content.now) }
        requires from_one { 1 ≤ place }
        requires slot { place + 2 ≤ self.old.free }
        requires room { self.old.free + content_words table.now kind (content_of content.now) < 2 ^ 64 }
        ensures free { OnOk result (self.new.free
            ≡ self.old.free + content_words table.now kind (content_of content.now)) }
        ensures puts { OnOk result ((H level : ℕ) → self.new.free ≤ H
            → level + content_depth (content_of content.now) ≤ MAX_DEPTH + 1
            → HasPutWord table.now H (slot_role label kind level, place)
            (pass_of self.old self.new place (place + 2))
            (λ w. slot_content table.now label kind w ≡ Some (content_of content.now))) }
    {
        match content {
            FieldValue::One(value) => match label {
                Label::Optional => self.optional(value, place),
                _ => self.item(table, kind, value, place),
            },
            FieldValue::Many(values) => {
                self.put(place, values.len() as u64)?;
                self.elements(table, kind, values, place + 1)
            }
            FieldValue::Pairs(entries) => {
                self.put(place, entries.len() as u64)?;
                self.entries(table, label.key(), kind, entries, place + 1)
            }
        }
    }

    // The address of elements, and the elements with their content.
    #[cycle(builder)]
    fn elements(
        &mut self,
        table: &Table,
        kind: Kind,
        values: &Values,
        place: u64,
    ) -> Result<(), Memory>
        requires valid { IsValid table.now }
        requires items { AreItems table.now kind (items_of values.now.items) }
        requires from_one { 1 ≤ place }
        requires slot { place + 1 ≤ self.old.free }
        requires room { self.old.free + many_words table.now kind (items_of values.now.items) < 2 ^ 64 }
        ensures free { OnOk result (self.new.free
            ≡ self.old.free + many_words table.now kind (items_of values.now.items)) }
        ensures puts { OnOk result ((H level : ℕ) → self.new.free ≤ H
            → level + items_depth (items_of values.now.items) ≤ MAX_DEPTH + 1
            → HasPut table.now H
            (part ((elements_address kind (length values.now.items) level, place) ∷ [])
            (λ P. elements_at table.now kind P ≡ items_of values.now.items))
            (pass_of self.old self.new place (place + 1))) }
    {
        let width = element_words(kind);
        let at = self.take(values.len() as u64 * width);
        self.put(place, at)?;
        let mut next = at;
        for value in values {
            self.item(table, kind, value, next)?;
            next += width;
        }
        Ok(())
    }

    // The address of entries, and the entries with the content of their keys and values.
    #[cycle(builder)]
    fn entries(
        &mut self,
        table: &Table,
        key: Kind,
        kind: Kind,
        entries: &Entries,
        place: u64,
    ) -> Result<(), Memory>
        requires valid { IsValid table.now }
        requires pairs { ArePairs table.now key kind (pairs_of entries.now.items) }
        requires key { (m : ℕ) → key ≢ Kind.Message m }
        requires from_one { 1 ≤ place }
        requires slot { place + 1 ≤ self.old.free }
        requires room { self.old.free + pairs_words table.now kind (pairs_of entries.now.items) < 2 ^ 64 }
        ensures free { OnOk result (self.new.free
            ≡ self.old.free + pairs_words table.now kind (pairs_of entries.now.items)) }
        ensures puts { OnOk result ((H level : ℕ) → self.new.free ≤ H
            → level + pairs_depth (pairs_of entries.now.items) ≤ MAX_DEPTH + 1
            → HasPut table.now H
            (part ((entries_address key kind (length entries.now.items) level, place) ∷ [])
            (λ P. entries_at table.now key kind P ≡ listed (pairs_of entries.now.items)))
            (pass_of self.old self.new place (place + 1))) }
    {
        let at = self.take(4 * entries.len() as u64);
        self.put(place, at)?;
        let mut next = at;
        for entry in entries {
            self.item(table, key, &entry.0, next)?;
            self.item(table, kind, &entry.1, next + 2)?;
            next += 4;
        }
        Ok(())
    }

    // A value in a plain slot, which starts with the number, the length or the address. Its content is included.
    #[cycle(builder)]
    fn item(&mut self, table: &Table, kind: Kind, value: &Value, place: u64) -> Result<(), Memory>
        requires valid { IsValid table.now }
        requires item { IsItem table.now kind (item_of value.now) }
        requires from_one { 1 ≤ place }
        requires slot { place + element_words kind ≤ self.old.free }
        requires room { self.old.free + item_words table.now kind (item_of value.now) < 2 ^ 64 }
        ensures free { OnOk result (self.new.free ≡ self.old.free + item_words table.now kind (item_of value.now)) }
        ensures puts { OnOk result ((H level : ℕ) (needed : Bool) → self.new.free ≤ H
            → level + item_depth (item_of value.now) ≤ MAX_DEPTH + 1
            → HasPutWord table.now H (plain_role kind level needed, place)
            (pass_of self.old self.new place (place + element_words kind))
            (IsSlotOf table.now kind (item_of value.now))) }
    {
        match value {
            Value::Number(number) => self.put(place, *number),
            Value::Run(bytes) => {
                self.put(place, bytes.len() as u64)?;
                self.run(bytes.as_slice(), place + 1)
            }
            Value::Node(tree) => {
                self.put(place, self.free)?;
                self.node(table, kind.message(), tree)
            }
        }
    }

    // A presence word and a number, or the length plus 1 and a run.
    fn optional(&mut self, value: &Value, place: u64) -> Result<(), Memory>
        requires from_one { 1 ≤ place }
        requires slot { place + 2 ≤ self.old.free }
        requires room { self.old.free + run_words_of (item_of value.now) < 2 ^ 64 }
        ensures free { OnOk result (IsNotMessage (item_of value.now)
            → self.new.free ≡ self.old.free + run_words_of (item_of value.now)) }
        ensures puts { OnOk result ((T : Table) (H : ℕ) (kind : Kind) → self.new.free ≤ H
            → ((m : ℕ) → kind ≢ Kind.Message m) → IsItem T kind (item_of value.now)
            → HasPutWord T H (optional_role kind, place)
            (pass_of self.old self.new place (place + 2))
            (λ w. slot_content T Label.Optional kind w ≡ Some (one (item_of value.now)))) }
    {
        match value {
            Value::Number(number) => {
                self.put(place, 1)?;
                self.put(place + 1, *number)
            }
            Value::Run(bytes) => {
                let bytes = bytes.as_slice();
                self.put(place, bytes.len() as u64 + 1)?;
                self.run(bytes, place + 1)
            }
            Value::Node(_) => Ok(()),
        }
    }

    // The address of a run, and its words; nothing if the run is empty.
    fn run(&mut self, bytes: &[u8], place: u64) -> Result<(), Memory>
        requires from_one { 1 ≤ place }
        requires slot { place + 1 ≤ self.old.free }
        requires room { self.old.free + run_words (length bytes.now) < 2 ^ 64 }
        ensures free { OnOk result (self.new.free ≡ self.old.free + run_words (length bytes.now)) }
        ensures puts { OnOk result ((T : Table) (H : ℕ) (kind : Kind) → self.new.free ≤ H
            → (kind ≡ Kind.Text → IsUtf8 bytes.now)
            → HasPut T H
            (part (run_expected kind (length bytes.now) place) (λ P. run_at (length bytes.now) P ≡ bytes.now))
            (pass_of self.old self.new place (place + 1))) }
    {
        if bytes.is_empty() {
            return Ok(());
        }
        self.put(place, self.free)?;
        let mut rest = bytes;
        while rest.len() > 8 {
            let (word, others) = rest.split_at(8);
            self.run_word(word)?;
            rest = others;
        }
        self.run_word(rest)
    }

    // A word of a run.
    fn run_word(&mut self, bytes: &[u8]) -> Result<(), Memory>
        requires few { length bytes.now ≤ 8 }
        requires room { self.old.free + 1 < 2 ^ 64 }
        ensures free { self.new.free ≡ self.old.free + 1 }
        ensures word { OnOk result ((v : ℕ) × HasBytes v bytes.now
            × (self.new.words.items ≡ self.old.words.items ++ (self.old.free, v) ∷ [])) }
    {
        let place = self.take(1);
        self.put(place, word_of(bytes))
    }
}

// The word with these bytes, at most eight, in its low bytes, and 0 in the others.
fn word_of(bytes: &[u8]) -> u64
    requires { length bytes.now ≤ 8 }
    ensures { HasBytes result bytes.now }
{
    let mut word = [0; 8];
    word[..bytes.len()].copy_from_slice(bytes);
    u64::from_le_bytes(word)
}
