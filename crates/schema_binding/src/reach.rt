//! The message types that two tables reach from the methods of a service.

ghost use Rattle.std.specs.Prelude.{◌≡◌, ◌<◌, ◌↔◌, ℕ, List, [], length, replicate, IsTrue, IfOk, OnOk, MatchOption};
ghost use Rattle.mrpc_table.specs.Valid.{IsField, IsKnown, IsMessage, IsValid};
ghost use Rattle.mrpc_table.specs.declared.table.Method.{Method as TheMethod};
ghost use Rattle.schema_binding.specs.Agreement.{methods_of};
ghost use Rattle.schema_binding.specs.Places.{method_at, AreOfType, IsLeastDifference, IsOtherPrint, IsPair, IsShared, HasFieldOfType, IsPrintedDifferently};
ghost use Rattle.schema_binding.specs.Reach.{HasGained, HasGrown, HasMarkedBoth, HasMarkedMethods, HasMarkedName, HasMarkedNext, IsClosedUnderFields, IsInMethods, IsLeastIn, IsPaired, HasExactlyReached, HasOnlyReached, IsSameIn, HasMarked};

use crate::compare::{is_same_field, is_same_message};
use crate::methods::method_at;
use mrpc_table::{Field, Kind, Memory, Message, Name, Table};
use std::alloc::Global;

// The pairs of messages, one of each table and with the same name, that both tables reach. Each pair is marked once.
#[derive(Drop)]
pub(crate) struct ReachedPairs {
    // For each of our messages the index of the peer's message, if the pair is marked.
    partners: Vec<Option<u32>>,
    // The marked pairs, in the order in which they were found.
    found: Vec<(u32, u32)>,
}

impl ReachedPairs {
    // The pairs that both reach from the methods of the service, which are the same in both tables.
    pub(crate) fn of(
        alloc: Global,
        ours: &Table,
        theirs: &Table,
        service: &Name,
    ) -> Result<ReachedPairs, Memory>
        requires ours { IsValid ours.now }
        requires theirs { IsValid theirs.now }
        requires same { methods_of ours.now service.now ≡ methods_of theirs.now service.now }
        ensures { IfOk result (HasExactlyReached ours.now theirs.now service.now) }
    {
        let mut reached = ReachedPairs::none(alloc, ours.messages.len())?;
        reached.mark_methods(ours, theirs, service)?;
        reached.mark_further(ours, theirs)?;
        Ok(reached)
    }

    // No pair is marked, with room for this many messages.
    fn none(alloc: Global, messages: usize) -> Result<ReachedPairs, Memory>
        ensures partners { IfOk result (λ reached. reached.partners.items ≡ replicate messages None) }
        ensures found { IfOk result (λ reached. reached.found.items ≡ []) }
    {
        let partners = vec![in alloc; None; messages]?;
        let found = Vec::with_capacity(alloc, messages)?;
        Ok(ReachedPairs { partners, found })
    }

    // Marks the inputs and outputs of the service's methods.
    fn mark_methods(&mut self, ours: &Table, theirs: &Table, service: &Name) -> Result<(), Memory>
        requires ours { IsValid ours.now }
        requires theirs { IsValid theirs.now }
        requires same { methods_of ours.now service.now ≡ methods_of theirs.now service.now }
        requires paired { IsPaired ours.now theirs.now self.old }
        ensures gains { OnOk result (HasGained ours.now theirs.now self.old self.new (IsInMethods ours.now service.now)) }
        ensures methods { OnOk result (HasMarkedMethods ours.now service.now self.new) }
    {
        for index in 0..ours.methods.len() {
            self.mark_method(ours, theirs, service, index)?;
        }
        Ok(())
    }

    // Marks the input and the output of the method at an index, if it is one of the service.
    fn mark_method(
        &mut self,
        ours: &Table,
        theirs: &Table,
        service: &Name,
        index: usize,
    ) -> Result<(), Memory>
        requires ours { IsValid ours.now }
        requires theirs { IsValid theirs.now }
        requires same { methods_of ours.now service.now ≡ methods_of theirs.now service.now }
        requires paired { IsPaired ours.now theirs.now self.old }
        ensures gains { OnOk result (HasGained ours.now theirs.now self.old self.new (IsInMethods ours.now service.now)) }
        ensures method { (method : TheMethod) → method_at ours.now service.now index ≡ Some method
            → OnOk result (HasMarkedBoth ours.now self.new method) }
    {
        let Some(our) = method_at(ours, service, index) else {
            return Ok(());
        };
        let Some(their) = method_at(theirs, service, index) else {
            return Ok(());
        };
        self.mark(our.input, their.input)?;
        self.mark(our.output, their.output)
    }

    // Marks the types that the marked pairs lead to, until no more are found.
    fn mark_further(&mut self, ours: &Table, theirs: &Table) -> Result<(), Memory>
        requires ours { IsValid ours.now }
        requires theirs { IsValid theirs.now }
        requires paired { IsPaired ours.now theirs.now self.old }
        ensures paired { OnOk result (IsPaired ours.now theirs.now self.new) }
        ensures grows { OnOk result (HasGrown self.old self.new) }
        ensures closed { OnOk result (IsClosedUnderFields ours.now theirs.now self.new) }
        ensures reached { (service : List ℕ) → HasOnlyReached ours.now theirs.now service self.old
            → OnOk result (HasOnlyReached ours.now theirs.now service self.new) }
    {
        let mut next = 0;
        while next < self.found.len() {
            let (our, their) = self.found[next];
            self.mark_fields(ours, our, theirs, their)?;
            next += 1;
        }
        Ok(())
    }

    // Marks the message types that the fields of a pair lead to.
    fn mark_fields(
        &mut self,
        ours: &Table,
        our: u32,
        theirs: &Table,
        their: u32,
    ) -> Result<(), Memory>
        requires ours { IsValid ours.now }
        requires theirs { IsValid theirs.now }
        requires pair { IsPair ours.now theirs.now our their }
        requires paired { IsPaired ours.now theirs.now self.old }
        ensures gains { OnOk result (HasGained ours.now theirs.now self.old self.new
            (HasFieldOfType ours.now theirs.now our their)) }
        ensures next { OnOk result (HasMarkedNext ours.now theirs.now self.new our their) }
    {
        let message = &ours.messages.as_slice()[our as usize];
        let other = &theirs.messages.as_slice()[their as usize];
        for field in message.fields.as_slice() {
            self.mark_field(ours, field, theirs, other)?;
        }
        Ok(())
    }

    // Marks the message type of a field, if the other message's field of the same number has that type too.
    fn mark_field(
        &mut self,
        ours: &Table,
        field: &Field,
        theirs: &Table,
        other: &Message,
    ) -> Result<(), Memory>
        requires field { IsKnown ours.now field.now.kind }
        requires other { IsMessage theirs.now other.now }
        requires paired { IsPaired ours.now theirs.now self.old }
        ensures gains { OnOk result (HasGained ours.now theirs.now self.old self.new
            (IsShared ours.now theirs.now field.now other.now)) }
        ensures marked { (type : List ℕ) → IsShared ours.now theirs.now field.now other.now type
            → OnOk result (HasMarkedName ours.now self.new type) }
    {
        match other.field(field.number) {
            Some(known) => self.mark_type(ours, field.kind, theirs, known.kind),
            None => Ok(()),
        }
    }

    // Marks the message type, if both kinds are the same one.
    fn mark_type(
        &mut self,
        ours: &Table,
        our: Kind,
        theirs: &Table,
        their: Kind,
    ) -> Result<(), Memory>
        requires our { IsKnown ours.now our }
        requires their { IsKnown theirs.now their }
        requires paired { IsPaired ours.now theirs.now self.old }
        ensures gains { OnOk result (HasGained ours.now theirs.now self.old self.new
            (AreOfType ours.now theirs.now our their)) }
        ensures marked { (type : List ℕ) → AreOfType ours.now theirs.now our their type
            → OnOk result (HasMarkedName ours.now self.new type) }
    {
        let Kind::Message(left) = our else {
            return Ok(());
        };
        let Kind::Message(right) = their else {
            return Ok(());
        };
        if is_same_message(ours, left, theirs, right) {
            self.mark(left, right)
        } else {
            Ok(())
        }
    }

    // Marks a pair, if it wasn't marked before.
    fn mark(&mut self, our: u32, their: u32) -> Result<(), Memory>
        requires { our < length self.old.partners.items }
        ensures { OnOk result (HasMarked self.old our their self.new) }
    {
        if self.partners[our as usize].is_some() {
            return Ok(());
        }
        self.partners[our as usize] = Some(their);
        self.found.push((our, their))?;
        Ok(())
    }

    // The least number of a field that both know and print differently, in one of our messages, if both reach it.
    pub(crate) fn differing_field(&self, ours: &Table, our: usize, theirs: &Table) -> Option<u32>
        requires ours { IsValid ours.now }
        requires theirs { IsValid theirs.now }
        requires paired { IsPaired ours.now theirs.now self.now }
        requires within { our < length ours.now.messages }
        ensures { MatchOption result (IsSameIn ours.now theirs.now self.now our)
            (IsLeastIn ours.now theirs.now self.now our) }
    {
        let their = self.partners[our]?;
        differing_field(ours, our, theirs, their)
    }
}

// The least number of a field that both know and print differently, in two messages of the same name.
fn differing_field(ours: &Table, our: usize, theirs: &Table, their: u32) -> Option<u32>
    requires ours { IsValid ours.now }
    requires theirs { IsValid theirs.now }
    requires pair { IsPair ours.now theirs.now our their }
    ensures { MatchOption result ((number : ℕ) → IsPrintedDifferently ours.now theirs.now our their number → ⊥)
        (IsLeastDifference ours.now theirs.now our their) }
{
    let message = &ours.messages.as_slice()[our];
    let other = &theirs.messages.as_slice()[their as usize];
    for field in message.fields.as_slice() {
        if differs(ours, message, field, theirs, other) {
            return Some(field.number);
        }
    }
    None
}

// Whether the other message has the field's number and prints it differently.
fn differs(ours: &Table, message: &Message, field: &Field, theirs: &Table, other: &Message) -> bool
    requires field { IsField ours.now (length message.now.oneofs) field.now }
    requires other { IsMessage theirs.now other.now }
    ensures { IsTrue result ↔ IsOtherPrint ours.now theirs.now message.now field.now other.now }
{
    match other.field(field.number) {
        Some(known) => !is_same_field(ours, message, field, theirs, other, known),
        None => false,
    }
}
