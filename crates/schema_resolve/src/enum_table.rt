//! The enums of a table.

ghost use Rattle.std.specs.Prelude.{◌≡◌, ◌<◌, length, map, IfOk, All, FitsSigned};
ghost use Rattle.std.specs.Int.{w32};
ghost use Rattle.mrpc_table.specs.Valid.{AreDistinct};
ghost use Rattle.proto_ast.specs.Together.{IsFormed, IsOrdered};
ghost use Rattle.schema_validation.specs.Types.{signed_value};
ghost use Rattle.schema_resolve.specs.Resolving.{HasNoViolation};
ghost use Rattle.schema_resolve.specs.Placing.{IsTablePlan};
ghost use Rattle.schema_resolve.specs.InOrder.{decl_value_pair, value_pair, AreValues, IsEnumAt};

use crate::plan::TablePlan;
use mrpc_table::{ChoiceValues, Choices, Memory, Name, Sequence};
use proto_ast::{Joined, ValueDecl};
use schema_validation::enum_number;
use std::alloc::Global;

// The number of a value, which fits 32 bits.
fn number_of(value: &ValueDecl) -> i32
    requires { FitsSigned w32 (signed_value value.now.number) }
    ensures { result ≡ signed_value value.now.number }
{
    match enum_number(&value.number) {
        Some(number) => number,
        None => unreachable!(),
    }
}

// The numbers and names of values, in the order of the text.
fn values_in<'a>(alloc: Global, decls: &'a [ValueDecl]) -> Result<Vec<(i32, &'a [u8])>, Memory>
    requires { All (λ v. FitsSigned w32 (signed_value v.number)) decls.now }
    ensures { IfOk result (λ v. map value_pair v.items ≡ map decl_value_pair decls.now) }
{
    let mut values = Vec::with_capacity(alloc, decls.len())?;
    for i in 0..decls.len() {
        let decl = &decls[i];
        values.push((number_of(decl), decl.name.name.as_slice()))?;
    }
    Ok(values)
}

// The numbers and names of values, by ascending number, then name.
fn sorted<'a>(alloc: Global, decls: &'a [ValueDecl]) -> Result<Vec<(i32, &'a [u8])>, Memory>
    requires fits { All (λ v. FitsSigned w32 (signed_value v.number)) decls.now }
    requires distinct { AreDistinct (map (λ v. v.name.name) decls.now) }
    ensures { IfOk result (λ v. AreValues decls.now (map value_pair v.items)) }
{
    let mut values = values_in(alloc, decls)?;
    values.sort()?;
    Ok(values)
}

fn copied(alloc: Global, values: &[(i32, &[u8])]) -> Result<ChoiceValues, Memory>
    ensures { IfOk result (λ v. v ≡ map value_pair values.now) }
{
    let mut copies = Sequence::with_room(alloc, values.len())?;
    for i in 0..values.len() {
        let (number, text) = values[i];
        let name = Name::from_slice(alloc, text)?;
        copies.push((number, name))?;
    }
    Ok(copies)
}

// The enum with an index, of files without a violation.
pub(crate) fn enum_in(
    alloc: Global,
    files: &Joined<'_>,
    plan: &TablePlan,
    place: usize,
) -> Result<Choices, Memory>
    requires formed { IsFormed files.now }
    requires ordered { IsOrdered files.now }
    requires clean { HasNoViolation files.now }
    requires plan { IsTablePlan files.now plan.now }
    requires within { place < length files.now.enums }
    ensures { IfOk result (IsEnumAt files.now plan.now place) }
{
    let decl = &files.enums()[place];
    let sorted = sorted(alloc, decl.values.as_slice())?;
    let values = copied(alloc, sorted.as_slice())?;
    Ok(Choices {
        name: plan.enums.names[place].copied(alloc)?,
        values,
    })
}
