//! The methods of a service in two tables.

ghost use Rattle.std.specs.Prelude.{◌≡◌, ◌↔◌, ℕ, length, IsTrue, IfSome, MatchOption};
ghost use Rattle.std.specs.Option.{option_copied};
ghost use Rattle.mrpc_table.specs.Valid.{IsValid, IsMethod};
ghost use Rattle.schema_binding.specs.Agreement.{signature, methods_of};
ghost use Rattle.schema_binding.specs.Places.{method_at, signature_at};
ghost use Rattle.schema_binding.specs.Disagreement.{AreFirstDifferentFrom};

use crate::compare::is_same_message;
use mrpc_table::{Method, Name, Table};

// How many methods the service has.
pub(crate) fn count_methods(table: &Table, service: &Name) -> u32
    requires { IsValid table.now }
    ensures { result ≡ length (methods_of table.now service.now) }
{
    let methods = table.methods.as_slice();
    let of_service = methods
        .iter()
        .filter(|method| method.service.as_slice() == service.as_slice());
    of_service.count() as u32
}

// The method at an index, if it is one of the service.
pub(crate) fn method_at<'a>(table: &'a Table, service: &Name, index: usize) -> Option<&'a Method>
    requires { IsValid table.now }
    ensures method { option_copied result ≡ method_at table.now service.now index }
    ensures known { IfSome result (λ method. IsMethod table.now method.now) }
{
    let method = table.methods.as_slice().get(index)?;
    if method.service.as_slice() == service.as_slice() {
        Some(method)
    } else {
        None
    }
}

// The first index, from 0, at which the methods of the service differ, or at which only one list has ended.
pub(crate) fn first_method(ours: &Table, theirs: &Table, service: &Name) -> Option<u32>
    requires ours { IsValid ours.now }
    requires theirs { IsValid theirs.now }
    ensures { MatchOption result (methods_of ours.now service.now ≡ methods_of theirs.now service.now)
        (AreFirstDifferentFrom (methods_of ours.now service.now) (methods_of theirs.now service.now)) }
{
    let mut at = 0;
    for index in 0..ours.methods.len().max(theirs.methods.len()) {
        if !is_same_at(ours, theirs, service, index) {
            return Some(at);
        }
        if method_at(ours, service, index).is_some() {
            at += 1;
        }
    }
    None
}

// Whether both tables have the same method of the service at an index, or neither has one there.
fn is_same_at(ours: &Table, theirs: &Table, service: &Name, index: usize) -> bool
    requires ours { IsValid ours.now }
    requires theirs { IsValid theirs.now }
    ensures { IsTrue result
        ↔ (signature_at ours.now service.now index ≡ signature_at theirs.now service.now index) }
{
    match method_at(ours, service, index) {
        Some(our) => match method_at(theirs, service, index) {
            Some(their) => is_same_method(ours, our, theirs, their),
            None => false,
        },
        None => method_at(theirs, service, index).is_none(),
    }
}

// Whether two methods have the same name, and inputs and outputs of the same names.
fn is_same_method(ours: &Table, our: &Method, theirs: &Table, their: &Method) -> bool
    requires our { IsMethod ours.now our.now }
    requires their { IsMethod theirs.now their.now }
    ensures { (index : ℕ) → IsTrue result
        ↔ (signature ours.now (index, our.now) ≡ signature theirs.now (index, their.now)) }
{
    our.name.as_slice() == their.name.as_slice()
        && is_same_message(ours, our.input, theirs, their.input)
        && is_same_message(ours, our.output, theirs, their.output)
}
