//! The words of a graph that are expected but not loaded yet, each with its role.

ghost use Rattle.std.specs.Prelude.{◌≡◌, ◌≤◌, ◌+◌, ℕ, List, [], ◌∷◌, ◌++◌, IfOk, OnOk, MatchOption};
ghost use Rattle.mrpc_table.specs.Valid.{IsValid};
ghost use Rattle.mrpc_table.specs.declared.limits.TheConstants.{MAX_HEAP};
ghost use Rattle.mrpc_table.specs.declared.table.Table.{Table};
ghost use Rattle.graph_form.specs.Roles.{size_words, node_words, elements_from, entries_from};
ghost use Rattle.graph_copy.specs.Expected.{expected, frame_words, stack_words, next_word, AreInHeap};
ghost use Rattle.graph_copy.specs.Opens.{HasOpenedFrame};

use crate::look_up::next_slot;
use crate::role::{Role, plain_role, slot_role};
use crate::stack::Stack;
use graph_form::{element_words, oneof_count};
use mrpc_table::{Kind, Memory, Table};
use std::alloc::Global;

// A sequence of expected words.
#[derive(Clone, Copy)]
pub(crate) enum WalkFrame {
    // One word.
    Word {
        role: Role,
        place: u64,
    },
    // The slots of a message's fields, from an index in its list.
    Slots {
        message: u32,
        field: usize,
        depth: u32,
        place: u64,
    },
    // The slots of a message's oneofs, from an index.
    Oneofs {
        message: u32,
        oneof: u32,
        depth: u32,
        place: u64,
    },
    // The remaining elements.
    Elements {
        kind: Kind,
        left: u64,
        depth: u32,
        place: u64,
    },
    // The remaining entries.
    Entries {
        key: Kind,
        kind: Kind,
        left: u64,
        depth: u32,
        place: u64,
    },
}

// The next word of a run; `left` bytes remain, this word's included.
#[derive(Clone, Copy)]
pub(crate) struct RunWord {
    pub kind: Kind,
    pub left: u64,
    pub place: u64,
}

// The word that is loaded next.
#[derive(Clone, Copy)]
pub(crate) enum Next {
    Word { role: Role, place: u64 },
    Run(RunWord),
}

impl Next {
    // The place of the word.
    pub(crate) fn place(self) -> u64
        ensures { (T : Table) (bytes : List ℕ) → result ≡ (next_word T bytes self).1 }
    {
        match self {
            Next::Word { role: _, place } => place,
            Next::Run(run) => run.place,
        }
    }
}

// The expected words of a graph, in a heap of `size` words: first those of the run that is being loaded, then those
// of the frames, the last frame first.
#[derive(Drop)]
pub(crate) struct Walk {
    pub size: u64,
    pub run: Option<RunWord>,
    // The bytes of the run so far.
    pub bytes: Vec<u8>,
    pub frames: Stack,
}

impl Walk {
    // Nothing is expected.
    pub(crate) fn new(alloc: Global, size: u64) -> Walk
        ensures size { result.size ≡ size }
        ensures run { result.run ≡ None }
        ensures expected { (T : Table) → expected T result ≡ [] }
    {
        Walk {
            size,
            run: None,
            bytes: Vec::new(alloc),
            frames: Stack::new(alloc),
        }
    }

    // Expects the words of a frame before all others.
    pub(crate) fn push(&mut self, frame: WalkFrame) -> Result<(), Memory>
        ensures frames { OnOk result ((T : Table)
            → stack_words T self.new.frames ≡ frame_words T frame ++ stack_words T self.old.frames) }
        ensures size { self.new.size ≡ self.old.size }
        ensures run { self.new.run ≡ self.old.run }
        ensures bytes { self.new.bytes ≡ self.old.bytes }
    {
        self.frames.push(frame)?;
        Ok(())
    }

    // Expects the words of a node before all others. The message has this index in the table.
    pub(crate) fn expect_node(
        &mut self,
        table: &Table,
        message: u32,
        depth: u32,
        place: u64,
        words: u64,
    ) -> Result<(), Memory>
        requires valid { IsValid table.now }
        requires words { words ≡ size_words table.now message }
        requires lies { place + words ≤ self.old.size }
        requires size { self.old.size ≤ MAX_HEAP }
        requires no_run { self.old.run ≡ None }
        ensures expected { OnOk result
            (expected table.now self.new ≡ node_words table.now message depth place ++ expected table.now self.old) }
        ensures size { self.new.size ≡ self.old.size }
        ensures no_run { self.new.run ≡ None }
    {
        let oneofs = u64::from(oneof_count(table, message));
        if oneofs > 0 {
            self.push(WalkFrame::Oneofs {
                message,
                oneof: 0,
                depth,
                place: place + (words - 3 * oneofs),
            })?;
        }
        self.push(WalkFrame::Slots {
            message,
            field: 0,
            depth,
            place,
        })?;
        Ok(())
    }

    // Takes the word to load next; `None` if no word is expected.
    pub(crate) fn next(&mut self, table: &Table) -> Result<Option<Next>, Memory>
        requires valid { IsValid table.now }
        requires fits { AreInHeap self.old.size (expected table.now self.old) }
        requires size { self.old.size ≤ MAX_HEAP }
        ensures word { IfOk result (λ found. MatchOption found (expected table.now self.old ≡ [])
            (λ next. expected table.now self.old
            ≡ next_word table.now self.new.bytes.items next ∷ expected table.now self.new)) }
        ensures size { self.new.size ≡ self.old.size }
        ensures no_run { self.new.run ≡ None }
    {
        if let Some(run) = self.run {
            self.run = None;
            return Ok(Some(Next::Run(run)));
        }
        while let Some(frame) = self.frames.pop() {
            if let Some((role, place)) = self.open(table, frame)? {
                return Ok(Some(Next::Word { role, place }));
            }
        }
        Ok(None)
    }

    // The first word of a frame. The frame's other words are expected next.
    fn open(&mut self, table: &Table, frame: WalkFrame) -> Result<Option<(Role, u64)>, Memory>
        requires valid { IsValid table.now }
        requires fits { AreInHeap self.old.size (frame_words table.now frame) }
        requires size { self.old.size ≤ MAX_HEAP }
        ensures found { IfOk result
            (HasOpenedFrame table.now (frame_words table.now frame) self.old.frames self.new.frames) }
        ensures size { self.new.size ≡ self.old.size }
        ensures run { self.new.run ≡ self.old.run }
        ensures bytes { self.new.bytes ≡ self.old.bytes }
    {
        match frame {
            WalkFrame::Word { role, place } => Ok(Some((role, place))),
            WalkFrame::Slots {
                message,
                field,
                depth,
                place,
            } => self.open_slots(table, message, field, depth, place),
            WalkFrame::Oneofs {
                message,
                oneof,
                depth,
                place,
            } => self.open_oneofs(table, message, oneof, depth, place),
            WalkFrame::Elements {
                kind,
                left,
                depth,
                place,
            } => self.open_elements(kind, left, depth, place),
            WalkFrame::Entries {
                key,
                kind,
                left,
                depth,
                place,
            } => self.open_entries(key, kind, left, depth, place),
        }
    }

    fn open_slots(
        &mut self,
        table: &Table,
        message: u32,
        from: usize,
        depth: u32,
        place: u64,
    ) -> Result<Option<(Role, u64)>, Memory>
        requires valid { IsValid table.now }
        requires fits { AreInHeap self.old.size (frame_words table.now (WalkFrame.Slots message from depth place)) }
        requires size { self.old.size ≤ MAX_HEAP }
        ensures found { IfOk result
            (HasOpenedFrame table.now (frame_words table.now (WalkFrame.Slots message from depth place))
            self.old.frames self.new.frames) }
        ensures size { self.new.size ≡ self.old.size }
        ensures run { self.new.run ≡ self.old.run }
        ensures bytes { self.new.bytes ≡ self.old.bytes }
    {
        let fields = table.fields(message);
        match next_slot(fields, from) {
            Some(index) => {
                let field = &fields[index];
                let role = slot_role(field.label, field.kind, depth);
                self.push(WalkFrame::Slots {
                    message,
                    field: index + 1,
                    depth,
                    place: place + 2,
                })?;
                Ok(Some((role, place)))
            }
            None => Ok(None),
        }
    }

    fn open_oneofs(
        &mut self,
        table: &Table,
        message: u32,
        oneof: u32,
        depth: u32,
        place: u64,
    ) -> Result<Option<(Role, u64)>, Memory>
        requires valid { IsValid table.now }
        requires fits { AreInHeap self.old.size (frame_words table.now (WalkFrame.Oneofs message oneof depth place)) }
        requires size { self.old.size ≤ MAX_HEAP }
        ensures found { IfOk result
            (HasOpenedFrame table.now (frame_words table.now (WalkFrame.Oneofs message oneof depth place))
            self.old.frames self.new.frames) }
        ensures size { self.new.size ≡ self.old.size }
        ensures run { self.new.run ≡ self.old.run }
        ensures bytes { self.new.bytes ≡ self.old.bytes }
    {
        if oneof >= oneof_count(table, message) {
            return Ok(None);
        }
        self.push(WalkFrame::Oneofs {
            message,
            oneof: oneof + 1,
            depth,
            place: place + 3,
        })?;
        let role = Role::Case {
            message,
            oneof,
            depth,
        };
        Ok(Some((role, place)))
    }

    fn open_elements(
        &mut self,
        kind: Kind,
        left: u64,
        depth: u32,
        place: u64,
    ) -> Result<Option<(Role, u64)>, Memory>
        requires fits { AreInHeap self.old.size (elements_from left kind depth place) }
        requires size { self.old.size ≤ MAX_HEAP }
        ensures found { IfOk result (λ found. (T : Table)
            → HasOpenedFrame T (elements_from left kind depth place) self.old.frames self.new.frames found) }
        ensures size { self.new.size ≡ self.old.size }
        ensures run { self.new.run ≡ self.old.run }
        ensures bytes { self.new.bytes ≡ self.old.bytes }
    {
        if left == 0 {
            return Ok(None);
        }
        self.push(WalkFrame::Elements {
            kind,
            left: left - 1,
            depth,
            place: place + element_words(kind),
        })?;
        Ok(Some((plain_role(kind, depth, true), place)))
    }

    fn open_entries(
        &mut self,
        key: Kind,
        kind: Kind,
        left: u64,
        depth: u32,
        place: u64,
    ) -> Result<Option<(Role, u64)>, Memory>
        requires fits { AreInHeap self.old.size (entries_from left key kind depth place) }
        requires size { self.old.size ≤ MAX_HEAP }
        ensures found { IfOk result (λ found. (T : Table)
            → HasOpenedFrame T (entries_from left key kind depth place) self.old.frames self.new.frames found) }
        ensures size { self.new.size ≡ self.old.size }
        ensures run { self.new.run ≡ self.old.run }
        ensures bytes { self.new.bytes ≡ self.old.bytes }
    {
        if left == 0 {
            return Ok(None);
        }
        self.push(WalkFrame::Entries {
            key,
            kind,
            left: left - 1,
            depth,
            place: place + 4,
        })?;
        self.push(WalkFrame::Word {
            role: plain_role(kind, depth, true),
            place: place + 2,
        })?;
        Ok(Some((plain_role(key, depth, true), place)))
    }
}
