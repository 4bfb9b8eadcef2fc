//! The declarations of the statements so far.

ghost use Rattle.std.specs.Prelude.{◌≡◌, ◌∷◌, ◌++◌, [], OnOk, length, nat_le, slice_get};
ghost use Rattle.proto_schema.specs.Files.{edit_at, innermost_of, oneofs_in_message, initial_draft};
ghost use Rattle.proto_schema.specs.StatementReading.{draft_of, statement_place, draft_with};
ghost use Rattle.proto_schema.specs.declared.limits.TheConstants.{MAX_OPEN};
ghost use Rattle.proto_schema.specs.declared.statement.Opening.TheVariants as openings;
ghost use Rattle.proto_schema.specs.declared.statement.StatementEffect.TheVariants as said;

use crate::limits::MAX_OPEN;
use crate::statement::{Opening, StatementEffect, StatementPlace};
use mrpc_table::{Memory, Sequence};
use proto_ast::{
    EnumDecl, EnumDecls, FieldDecl, FieldDecls, File, Import, Imports, MessageDecl, MessageDecls,
    Ranges, RpcDecl, RpcDecls, ServiceDecl, ServiceDecls, ValueDecl, ValueDecls, Word, Words,
};
use std::alloc::Global;
use std::mem;

// The open block in the innermost open message, or in the file if no message is open.
#[derive(Clone, Copy)]
pub(crate) enum OpenBlock {
    None,
    // A oneof: its index in its message, and whether it has a field.
    Oneof(usize, bool),
    // An enum, and whether it has a value.
    Enum(bool),
    Service,
    // The options of an rpc.
    Rpc,
}

// A file while it is being read.
pub(crate) struct Draft {
    package: Option<Word>,
    imports: Imports,
    messages: Vec<MessageDecl>,
    enums: Vec<EnumDecl>,
    services: Vec<ServiceDecl>,
    // The indices of the open messages, the outermost first.
    nested: Vec<usize>,
    block: OpenBlock,
}

impl Drop for Draft {
    fn drop(self) {
        let Draft {
            package: _package,
            imports: _imports,
            messages: _messages,
            enums: _enums,
            services: _services,
            nested: _nested,
            block: _,
        } = self;
    }
}

// Appends items to others. If there are no others, nothing is copied.
fn append<T: Drop>(alloc: Global, items: &mut Sequence<T>, more: Sequence<T>) -> Result<(), Memory>
    ensures { OnOk result (items.new ≡ items.old ++ more) }
{
    if items.is_empty() {
        *items = more;
        return Ok(());
    }
    let mut all = mem::replace(items, Sequence::new(alloc)).into_vec();
    let mut more = more.into_vec();
    all.append(&mut more)?;
    *items = Sequence::from_vec(all);
    Ok(())
}

fn push_field(messages: &mut [MessageDecl], place: usize, field: FieldDecl) -> Result<(), Memory>
    ensures { OnOk result (messages.new ≡ edit_at place (λ m. record m { fields = m.fields ++ field ∷ [] }) messages.old) }
{
    if place < messages.len() {
        let message = &mut messages[place];
        message.fields.push(field)?;
    }
    Ok(())
}

fn push_oneof(messages: &mut [MessageDecl], place: usize, name: Word) -> Result<(), Memory>
    ensures { OnOk result (messages.new ≡ edit_at place (λ m. record m { oneofs = m.oneofs ++ name ∷ [] }) messages.old) }
{
    if place < messages.len() {
        let message = &mut messages[place];
        message.oneofs.push(name)?;
    }
    Ok(())
}

fn push_ranges(
    alloc: Global,
    messages: &mut [MessageDecl],
    place: usize,
    ranges: Ranges,
) -> Result<(), Memory>
    ensures { OnOk result (messages.new ≡ edit_at place (λ m. record m { ranges = m.ranges ++ ranges }) messages.old) }
{
    if place < messages.len() {
        let message = &mut messages[place];
        append(alloc, &mut message.ranges, ranges)?;
    }
    Ok(())
}

fn push_names(
    alloc: Global,
    messages: &mut [MessageDecl],
    place: usize,
    names: Words,
) -> Result<(), Memory>
    ensures { OnOk result (messages.new ≡ edit_at place (λ m. record m { names = m.names ++ names }) messages.old) }
{
    if place < messages.len() {
        let message = &mut messages[place];
        append(alloc, &mut message.names, names)?;
    }
    Ok(())
}

fn push_value(enums: &mut [EnumDecl], place: usize, value: ValueDecl) -> Result<(), Memory>
    ensures { OnOk result (enums.new ≡ edit_at place (λ e. record e { values = e.values ++ value ∷ [] }) enums.old) }
{
    if place < enums.len() {
        let last = &mut enums[place];
        last.values.push(value)?;
    }
    Ok(())
}

fn push_value_ranges(
    alloc: Global,
    enums: &mut [EnumDecl],
    place: usize,
    ranges: Ranges,
) -> Result<(), Memory>
    ensures { OnOk result (enums.new ≡ edit_at place (λ e. record e { ranges = e.ranges ++ ranges }) enums.old) }
{
    if place < enums.len() {
        let last = &mut enums[place];
        append(alloc, &mut last.ranges, ranges)?;
    }
    Ok(())
}

fn push_value_names(
    alloc: Global,
    enums: &mut [EnumDecl],
    place: usize,
    names: Words,
) -> Result<(), Memory>
    ensures { OnOk result (enums.new ≡ edit_at place (λ e. record e { names = e.names ++ names }) enums.old) }
{
    if place < enums.len() {
        let last = &mut enums[place];
        append(alloc, &mut last.names, names)?;
    }
    Ok(())
}

fn push_rpc(services: &mut [ServiceDecl], place: usize, rpc: RpcDecl) -> Result<(), Memory>
    ensures { OnOk result (services.new ≡ edit_at place (λ s. record s { rpcs = s.rpcs ++ rpc ∷ [] }) services.old) }
{
    if place < services.len() {
        let last = &mut services[place];
        last.rpcs.push(rpc)?;
    }
    Ok(())
}

// The number of oneofs of a message.
fn oneofs_in(messages: &[MessageDecl], place: usize) -> usize
    ensures { result ≡ oneofs_in_message (slice_get messages.now place) }
{
    match messages.get(place) {
        Some(message) => message.oneofs.len(),
        None => 0,
    }
}

#[tactic(auto, using(crate::proofs::Drafts::draft_lemmas))]
impl Draft {
    // An empty draft: nothing is declared and nothing is open.
    pub(crate) fn new(alloc: Global) -> Draft
        ensures { draft_of result ≡ initial_draft }
    {
        Draft {
            package: None,
            imports: Imports::new(alloc),
            messages: Vec::new(alloc),
            enums: Vec::new(alloc),
            services: Vec::new(alloc),
            nested: Vec::new(alloc),
            block: OpenBlock::None,
        }
    }

    // Where the next statement is.
    pub(crate) fn place(&self) -> StatementPlace
        ensures { result ≡ statement_place (draft_of self.now) }
    {
        match self.block {
            OpenBlock::Oneof(_, filled) => StatementPlace::Oneof { filled },
            OpenBlock::Enum(filled) => StatementPlace::Enum { filled },
            OpenBlock::Service => StatementPlace::Service,
            OpenBlock::Rpc => StatementPlace::Rpc,
            OpenBlock::None if self.nested.is_empty() => StatementPlace::File {
                package: self.package.is_some(),
            },
            OpenBlock::None => StatementPlace::Message,
        }
    }

    // True if no further message can be opened, since `MAX_OPEN` are open.
    pub(crate) fn is_deep(&self) -> bool
        ensures { result ≡ nat_le MAX_OPEN (length (draft_of self.now).messages) }
    {
        self.nested.len() >= MAX_OPEN
    }

    // The file, if nothing is open.
    pub(crate) fn into_file(self) -> File
        ensures { result ≡ (draft_of self).file }
    {
        let Draft {
            package,
            imports,
            messages,
            enums,
            services,
            nested: _nested,
            block: _,
        } = self;
        File {
            package,
            imports,
            messages: MessageDecls::from_vec(messages),
            enums: EnumDecls::from_vec(enums),
            services: ServiceDecls::from_vec(services),
        }
    }

    // The index of the innermost open message.
    fn innermost(&self) -> Option<usize>
        ensures { result ≡ innermost_of (draft_of self.now).messages }
    {
        self.nested.last().copied()
    }

    fn open_message(&mut self, alloc: Global, name: Word) -> Result<(), Memory>
        ensures { OnOk result (draft_of self.new ≡ draft_with (draft_of self.old) (said.Open openings.Message name)) }
    {
        let place = self.messages.len();
        let parent = self.innermost();
        self.messages.push(MessageDecl {
            name,
            file: 0,
            parent,
            fields: FieldDecls::new(alloc),
            oneofs: Words::new(alloc),
            ranges: Ranges::new(alloc),
            names: Words::new(alloc),
        })?;
        self.nested.push(place)?;
        self.block = OpenBlock::None;
        Ok(())
    }

    fn open_enum(&mut self, alloc: Global, name: Word) -> Result<(), Memory>
        ensures { OnOk result (draft_of self.new ≡ draft_with (draft_of self.old) (said.Open openings.Enum name)) }
    {
        let parent = self.innermost();
        self.enums.push(EnumDecl {
            name,
            file: 0,
            parent,
            values: ValueDecls::with_room(alloc, 1)?,
            ranges: Ranges::new(alloc),
            names: Words::new(alloc),
        })?;
        self.block = OpenBlock::Enum(false);
        Ok(())
    }

    fn open_service(&mut self, alloc: Global, name: Word) -> Result<(), Memory>
        ensures { OnOk result (draft_of self.new ≡ draft_with (draft_of self.old) (said.Open openings.Service name)) }
    {
        self.services.push(ServiceDecl {
            name,
            file: 0,
            rpcs: RpcDecls::new(alloc),
        })?;
        self.block = OpenBlock::Service;
        Ok(())
    }

    fn open_oneof(&mut self, name: Word) -> Result<(), Memory>
        ensures { OnOk result (draft_of self.new ≡ draft_with (draft_of self.old) (said.Open openings.Oneof name)) }
    {
        match self.innermost() {
            Some(message) => {
                let place = oneofs_in(&self.messages, message);
                push_oneof(&mut self.messages, message, name)?;
                self.block = OpenBlock::Oneof(place, false);
            }
            None => self.block = OpenBlock::Oneof(0, false),
        }
        Ok(())
    }

    fn add_field(&mut self, mut field: FieldDecl) -> Result<(), Memory>
        ensures { OnOk result (draft_of self.new ≡ draft_with (draft_of self.old) (said.Field field)) }
    {
        if let OpenBlock::Oneof(place, _) = self.block {
            field.oneof = Some(place);
            self.block = OpenBlock::Oneof(place, true);
        }
        match self.innermost() {
            Some(message) => push_field(&mut self.messages, message, field),
            None => Ok(()),
        }
    }

    fn add_value(&mut self, value: ValueDecl) -> Result<(), Memory>
        ensures { OnOk result (draft_of self.new ≡ draft_with (draft_of self.old) (said.Value value)) }
    {
        let last = self.enums.len().saturating_sub(1);
        push_value(&mut self.enums, last, value)?;
        self.block = OpenBlock::Enum(true);
        Ok(())
    }

    fn add_ranges(&mut self, alloc: Global, ranges: Ranges) -> Result<(), Memory>
        ensures { OnOk result (draft_of self.new ≡ draft_with (draft_of self.old) (said.Ranges ranges)) }
    {
        if let OpenBlock::Enum(_) = self.block {
            let last = self.enums.len().saturating_sub(1);
            return push_value_ranges(alloc, &mut self.enums, last, ranges);
        }
        match self.innermost() {
            Some(message) => push_ranges(alloc, &mut self.messages, message, ranges),
            None => Ok(()),
        }
    }

    fn add_names(&mut self, alloc: Global, names: Words) -> Result<(), Memory>
        ensures { OnOk result (draft_of self.new ≡ draft_with (draft_of self.old) (said.Names names)) }
    {
        if let OpenBlock::Enum(_) = self.block {
            let last = self.enums.len().saturating_sub(1);
            return push_value_names(alloc, &mut self.enums, last, names);
        }
        match self.innermost() {
            Some(message) => push_names(alloc, &mut self.messages, message, names),
            None => Ok(()),
        }
    }

    fn add_rpc(&mut self, rpc: RpcDecl, block: bool) -> Result<(), Memory>
        ensures { OnOk result (draft_of self.new ≡ draft_with (draft_of self.old) (said.Rpc rpc block)) }
    {
        let last = self.services.len().saturating_sub(1);
        push_rpc(&mut self.services, last, rpc)?;
        if block {
            self.block = OpenBlock::Rpc;
        }
        Ok(())
    }

    fn close(&mut self)
        ensures { draft_of self.new ≡ draft_with (draft_of self.old) said.Close }
    {
        match self.block {
            OpenBlock::None => {
                let _ = self.nested.pop();
            }
            OpenBlock::Rpc => self.block = OpenBlock::Service,
            _ => self.block = OpenBlock::None,
        }
    }

    // Opens a block.
    pub(crate) fn open(&mut self, alloc: Global, opening: Opening, name: Word) -> Result<(), Memory>
        ensures { OnOk result (draft_of self.new ≡ draft_with (draft_of self.old) (said.Open opening name)) }
    {
        match opening {
            Opening::Message => self.open_message(alloc, name),
            Opening::Enum => self.open_enum(alloc, name),
            Opening::Service => self.open_service(alloc, name),
            Opening::Oneof => self.open_oneof(name),
        }
    }

    // Adds what a statement declares.
    pub(crate) fn add(&mut self, alloc: Global, says: StatementEffect) -> Result<(), Memory>
        ensures { OnOk result (draft_of self.new ≡ draft_with (draft_of self.old) says) }
    {
        match says {
            StatementEffect::Nothing => Ok(()),
            StatementEffect::Package(name) => {
                self.package = Some(name);
                Ok(())
            }
            StatementEffect::Import(import) => self.imports.push(import),
            StatementEffect::Open(opening, name) => self.open(alloc, opening, name),
            StatementEffect::Field(field) => self.add_field(field),
            StatementEffect::Ranges(ranges) => self.add_ranges(alloc, ranges),
            StatementEffect::Names(names) => self.add_names(alloc, names),
            StatementEffect::Value(value) => self.add_value(value),
            StatementEffect::Rpc(rpc, block) => self.add_rpc(rpc, block),
            StatementEffect::Close => {
                self.close();
                Ok(())
            }
        }
    }
}
