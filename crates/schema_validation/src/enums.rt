//! Violations of enums and their values.

ghost use Rattle.std.specs.Prelude.{◌≡◌, ◌≢◌, ◌⊎◌, true, pos, OnOk, FitsSigned};
ghost use Rattle.std.specs.Int.{w32};
ghost use Rattle.mrpc_table.specs.declared.limits.TheConstants.{MAX_VALUES as VALUES};
ghost use Rattle.schema_validation.specs.Types.{signed_value};
ghost use Rattle.schema_validation.specs.Members.{Is, IsValueViolation, IsNameViolation, IsEnumViolation};
ghost use Rattle.schema_validation.specs.Recording.{IsWhere, HasRecorded, IsOfAny, IsOfElement};
ghost use Rattle.schema_validation.specs.declared.reason.ResolveReason.TheVariants as reasons;

use crate::first::FirstViolation;
use crate::name_set::{NameSet, note_long};
use crate::numbers::{Reserved, ZERO, enum_number, number_position};
use crate::reason::ResolveReason;
use mrpc_table::{MAX_ENUMS, MAX_VALUES, Memory};
use proto_ast::{EnumDecl, Joined, Number};
use std::alloc::Global;

// Records the violations of a number, given whether it is reserved and whether it is that of the first value.
fn note_number(number: &Number, is_reserved: bool, is_first: bool, first: &mut FirstViolation)
    ensures { HasRecorded (λ q s. (((FitsSigned w32 (signed_value number.now) → ⊥) × Is reasons.NumberRange number.now.span q s)
        ⊎ IsWhere is_reserved reasons.Reserved number.now.span q s)
        ⊎ ((is_first ≡ true) × (signed_value number.now ≢ pos 0) × Is reasons.FirstEnum number.now.span q s))
        first.old first.new }
{
    let out_of_range = enum_number(number).is_none();
    first.note_if(out_of_range, ResolveReason::NumberRange, number.span);
    first.note_if(is_reserved, ResolveReason::Reserved, number.span);
    first.note_if(
        is_first && number_position(number) != ZERO,
        ResolveReason::FirstEnum,
        number.span,
    );
}

fn note_numbers(alloc: Global, choices: &EnumDecl, first: &mut FirstViolation) -> Result<(), Memory>
    ensures { OnOk result (HasRecorded (IsOfAny (IsValueViolation choices.now)) first.old first.new) }
{
    let reserved = Reserved::new(alloc, choices.ranges.as_slice())?;
    let values = choices.values.as_slice();
    for i in 0..values.len() {
        let number = &values[i].number;
        let is_reserved = reserved.has(number_position(number));
        note_number(number, is_reserved, i == 0, first);
    }
    Ok(())
}

fn note_names(alloc: Global, choices: &EnumDecl, first: &mut FirstViolation) -> Result<(), Memory>
    ensures { OnOk result (HasRecorded (IsOfAny (IsOfElement choices.now.values
        (λ i v. IsNameViolation choices.now.names VALUES i v.name))) first.old first.new) }
{
    let reserved = NameSet::new(alloc, &choices.names)?;
    let values = choices.values.as_slice();
    for i in 0..values.len() {
        reserved.note_name(i, MAX_VALUES, &values[i].name, first);
    }
    Ok(())
}

fn note_enum(
    alloc: Global,
    i: usize,
    choices: &EnumDecl,
    first: &mut FirstViolation,
) -> Result<(), Memory>
    ensures { OnOk result (HasRecorded (IsEnumViolation i choices.now) first.old first.new) }
{
    first.note_if(i >= MAX_ENUMS, ResolveReason::Limit, choices.name.span);
    note_long(&choices.name, first);
    note_numbers(alloc, choices, first)?;
    note_names(alloc, choices, first)?;
    Ok(())
}

// Records the violations of the enums, except duplicate names and long full names.
pub(crate) fn note_enums(
    alloc: Global,
    files: &Joined<'_>,
    first: &mut FirstViolation,
) -> Result<(), Memory>
    ensures { OnOk result (HasRecorded (IsOfAny (IsOfElement files.now.enums IsEnumViolation)) first.old first.new) }
{
    let enums = files.enums();
    for i in 0..enums.len() {
        note_enum(alloc, i, &enums[i], first)?;
    }
    Ok(())
}
