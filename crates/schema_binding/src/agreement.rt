//! Whether two tables agree on a service.

ghost use Rattle.std.specs.Prelude.{◌≡◌, ◌⊎◌, ℕ, List, length, OnOk, IfOk, IfErr, MatchResult};
ghost use Rattle.mrpc_table.specs.Text.{table_text};
ghost use Rattle.mrpc_table.specs.Valid.{IsValid};
ghost use Rattle.schema_binding.specs.Agreement.{AreInAgreement, IsDisagreement, IsDifference, methods_of};
ghost use Rattle.schema_binding.specs.Disagreement.{HaveDifferentTexts, HaveDifferentMethods, HaveDifferentFields};
ghost use Rattle.schema_binding.specs.declared.fault.AgreeFault.{AgreeFault as TheFault};
ghost use Rattle.schema_binding.specs.declared.fault.AgreeFault.TheVariants.{Memory as NoMemory};

use crate::compare::first_byte;
use crate::fault::AgreeFault;
use crate::methods::{count_methods, first_method};
use crate::reach::ReachedPairs;
use frame_transport::VERSION;
use mrpc_table::{Name, Table};
use std::alloc::Global;
use table_text::table_text;

/// The result of an agreement.
#[derive(Clone, Copy)]
pub struct Agreed {
    /// How many methods the service has.
    pub methods: u32,
}

/// Compares two tables on a service; `version` is that of the peer's hello. Both must have a method of the service.
/// Under version 1 they then agree if their canonical texts are equal. Under version 2 they then agree if the service's
/// methods are the same, and so is each field that both know in each message type that both reach. Takes time linear in
/// the methods and the fields, except that each field is found by a binary search.
pub fn agree(
    alloc: Global,
    ours: &Table,
    theirs: &Table,
    service: &Name,
    version: u8,
) -> Result<Agreed, AgreeFault>
    requires ours { IsValid ours.now }
    requires theirs { IsValid theirs.now }
    requires version { (version ≡ 1) ⊎ (version ≡ 2) }
    // They agree, and the service has this many methods.
    ensures agreed { OnOk result (AreInAgreement ours.now theirs.now service.now version) }
    ensures methods { IfOk result (λ agreed. agreed.methods ≡ length (methods_of ours.now service.now)) }
    // The error is why they don't agree.
    ensures refused { IfErr result (λ fault. (fault ≡ NoMemory)
        ⊎ IsDisagreement ours.now theirs.now service.now version fault) }
    // If they agree, the only error is `Memory`. If they don't, the error is their first difference or `Memory`.
    ensures agreed_only { AreInAgreement ours.now theirs.now service.now version
        → IfErr result (λ fault. fault ≡ NoMemory) }
    ensures refused_only { (why : TheFault) → IsDisagreement ours.now theirs.now service.now version why
        → MatchResult result (λ _. ⊥) (λ fault. (fault ≡ NoMemory) ⊎ (fault ≡ why)) }
{
    let methods = count_methods(ours, service);
    let others = count_methods(theirs, service);
    if methods == 0 || others == 0 {
        return Err(AgreeFault::NoService {
            ours: methods > 0,
            theirs: others > 0,
        });
    }
    if version == VERSION {
        same_text(alloc, ours, theirs)?;
    } else {
        same_methods(ours, theirs, service)?;
        same_fields(alloc, ours, theirs, service)?;
    }
    Ok(Agreed { methods })
}

// Compares the canonical texts.
fn same_text(alloc: Global, ours: &Table, theirs: &Table) -> Result<(), AgreeFault>
    requires ours { IsValid ours.now }
    requires theirs { IsValid theirs.now }
    ensures same { OnOk result (table_text ours.now ≡ table_text theirs.now) }
    ensures differ { IfErr result (λ fault. (fault ≡ NoMemory) ⊎ HaveDifferentTexts ours.now theirs.now fault) }
{
    let our = table_text(alloc, ours)?;
    let their = table_text(alloc, theirs)?;
    match first_byte(our.as_slice(), their.as_slice()) {
        None => Ok(()),
        Some(at) => Err(AgreeFault::Mismatch {
            byte: at as u64,
            ours: our.as_slice().get(at).copied(),
            theirs: their.as_slice().get(at).copied(),
        }),
    }
}

// Compares the methods of the service.
fn same_methods(ours: &Table, theirs: &Table, service: &Name) -> Result<(), AgreeFault>
    requires ours { IsValid ours.now }
    requires theirs { IsValid theirs.now }
    ensures same { OnOk result (methods_of ours.now service.now ≡ methods_of theirs.now service.now) }
    ensures differ { IfErr result (HaveDifferentMethods ours.now theirs.now service.now) }
{
    match first_method(ours, theirs, service) {
        None => Ok(()),
        Some(at) => Err(AgreeFault::Methods { at }),
    }
}

// Compares each field that both know, in each type that both reach. The messages ascend by name and their fields by
// number, so the first difference is the least.
fn same_fields(
    alloc: Global,
    ours: &Table,
    theirs: &Table,
    service: &Name,
) -> Result<(), AgreeFault>
    requires ours { IsValid ours.now }
    requires theirs { IsValid theirs.now }
    requires same { methods_of ours.now service.now ≡ methods_of theirs.now service.now }
    ensures same { OnOk result ((type : List ℕ) (number : ℕ)
        → IsDifference ours.now theirs.now service.now type number → ⊥) }
    ensures differ { IfErr result (λ fault. (fault ≡ NoMemory)
        ⊎ HaveDifferentFields ours.now theirs.now service.now fault) }
{
    let reached = ReachedPairs::of(alloc, ours, theirs, service)?;
    for (our, message) in ours.messages.as_slice().iter().enumerate() {
        if let Some(number) = reached.differing_field(ours, our, theirs) {
            return Err(AgreeFault::Field {
                message: message.name.copied(alloc)?,
                number,
            });
        }
    }
    Ok(())
}
