//! The messages of a table.

ghost use Rattle.std.specs.Prelude.{◌≡◌, ◌<◌, ◌^◌, length, IfOk};
ghost use Rattle.proto_ast.specs.Order.{IsIndexBelow};
ghost use Rattle.proto_ast.specs.Together.{IsFormed, IsOrdered};
ghost use Rattle.schema_resolve.specs.Resolving.{HasNoViolation};
ghost use Rattle.schema_resolve.specs.Placing.{IsTablePlan};
ghost use Rattle.schema_resolve.specs.Joining.{HasOneofs, IsLabelled, table_kind, IsInPlan, IsNextField, IsMessageAt};

use crate::field_table::{ShapedField, by_number};
use crate::oneof_table::Oneofs;
use crate::plan::TablePlan;
use mrpc_table::{Field, Kind, Label, Memory, Message, Sequence};
use proto_ast::{Joined, Word};
use schema_symbols::{Symbol, SymbolTable};
use schema_validation::TypeOf;
use std::alloc::Global;

fn table_kind(plan: &TablePlan, type_of: TypeOf) -> Kind
    requires { IsInPlan plan.now type_of }
    ensures { result ≡ table_kind plan.now type_of }
{
    match type_of {
        TypeOf::Scalar(kind) => kind,
        TypeOf::Named(Symbol::Message(i)) => Kind::Message(plan.messages.places[i]),
        TypeOf::Named(Symbol::Enum(i)) => Kind::Choice(plan.enums.places[i]),
    }
}

// The label of a field; a oneof is given by its index in the table.
fn label_in<'a>(
    alloc: Global,
    oneofs: &mut Oneofs,
    words: &[Word],
    judged: &ShapedField<'a>,
) -> Result<Label, Memory>
    requires keeps { HasOneofs words.now oneofs.old }
    requires oneof { IsIndexBelow (length words.now) judged.now.decl.now.oneof }
    requires few { length oneofs.old.names < 2 ^ 32 }
    ensures keeps { IfOk result (λ l. HasOneofs words.now oneofs.new) }
    ensures label { IfOk result
        (IsLabelled words.now judged.now.decl.now.oneof judged.now.form.label oneofs.old oneofs.new) }
{
    match judged.decl.oneof {
        Some(i) => Ok(Label::Member(oneofs.place_of(alloc, words, i)?)),
        None => Ok(judged.form.label),
    }
}

fn field_in<'a>(
    alloc: Global,
    plan: &TablePlan,
    oneofs: &mut Oneofs,
    words: &[Word],
    judged: &ShapedField<'a>,
) -> Result<Field, Memory>
    requires keeps { HasOneofs words.now oneofs.old }
    requires oneof { IsIndexBelow (length words.now) judged.now.decl.now.oneof }
    requires few { length oneofs.old.names < 2 ^ 32 }
    requires known { IsInPlan plan.now judged.now.form.type_of }
    ensures { IfOk result (IsNextField plan.now words.now judged.now oneofs.old oneofs.new) }
{
    let label = label_in(alloc, oneofs, words, judged)?;
    let name = judged.decl.name.name.copied(alloc)?;
    Ok(Field {
        number: judged.number,
        name,
        kind: table_kind(plan, judged.form.type_of),
        label,
    })
}

// The message with an index, of files without a violation.
pub(crate) fn message_in<'a>(
    alloc: Global,
    files: &Joined<'a>,
    scopes: &SymbolTable<'a>,
    plan: &TablePlan,
    place: usize,
) -> Result<Message, Memory>
    requires formed { IsFormed files.now }
    requires ordered { IsOrdered files.now }
    requires scopes { scopes.now ≡ files.now }
    requires clean { HasNoViolation files.now }
    requires plan { IsTablePlan files.now plan.now }
    requires within { place < length files.now.messages }
    ensures { IfOk result (IsMessageAt files.now plan.now place) }
{
    let message = &files.messages()[place];
    let sorted = by_number(alloc, scopes, place, message)?;
    let words = message.oneofs.as_slice();
    let mut oneofs = Oneofs::new(alloc, words)?;
    let mut fields = Sequence::with_room(alloc, sorted.len())?;
    for i in 0..sorted.len() {
        let field = field_in(alloc, plan, &mut oneofs, words, &sorted[i])?;
        fields.push(field)?;
    }
    Ok(Message {
        name: plan.messages.names[place].copied(alloc)?,
        fields,
        oneofs: oneofs.names,
    })
}
