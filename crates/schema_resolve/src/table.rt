//! The table of files without a violation.

ghost use Rattle.std.specs.Prelude.{◌≡◌, IfOk};
ghost use Rattle.proto_ast.specs.Together.{IsFormed, IsOrdered};
ghost use Rattle.schema_validation.specs.Correspondence.{AreCorrespondingInOrder};
ghost use Rattle.schema_resolve.specs.Tables.{IsTableOf};
ghost use Rattle.schema_resolve.specs.Resolving.{HasNoViolation};
ghost use Rattle.schema_resolve.specs.Placing.{IsTablePlan};
ghost use Rattle.schema_resolve.specs.InOrder.{IsEnumAt};
ghost use Rattle.schema_resolve.specs.Joining.{IsMessageAt};
ghost use Rattle.schema_resolve.specs.Making.{IsMadeTable};

use crate::enum_table::enum_in;
use crate::message_table::message_in;
use crate::method_table::methods_in;
use crate::plan::{TablePlan, plan_of};
use mrpc_table::{Enums, Memory, Messages, Sequence, Table};
use proto_ast::Joined;
use schema_symbols::SymbolTable;
use std::alloc::Global;

// The messages by ascending name.
fn messages_in<'a>(
    alloc: Global,
    files: &Joined<'a>,
    scopes: &SymbolTable<'a>,
    plan: &TablePlan,
) -> Result<Messages, Memory>
    requires formed { IsFormed files.now }
    requires ordered { IsOrdered files.now }
    requires scopes { scopes.now ≡ files.now }
    requires clean { HasNoViolation files.now }
    requires plan { IsTablePlan files.now plan.now }
    ensures { IfOk result (AreCorrespondingInOrder (IsMessageAt files.now plan.now) plan.now.messages.order.items) }
{
    let order = plan.messages.order.as_slice();
    let mut messages = Sequence::with_room(alloc, order.len())?;
    for i in 0..order.len() {
        let message = message_in(alloc, files, scopes, plan, order[i])?;
        messages.push(message)?;
    }
    Ok(messages)
}

// The enums by ascending name.
fn enums_in(alloc: Global, files: &Joined<'_>, plan: &TablePlan) -> Result<Enums, Memory>
    requires formed { IsFormed files.now }
    requires ordered { IsOrdered files.now }
    requires clean { HasNoViolation files.now }
    requires plan { IsTablePlan files.now plan.now }
    ensures { IfOk result (AreCorrespondingInOrder (IsEnumAt files.now plan.now) plan.now.enums.order.items) }
{
    let order = plan.enums.order.as_slice();
    let mut enums = Sequence::with_room(alloc, order.len())?;
    for i in 0..order.len() {
        let choices = enum_in(alloc, files, plan, order[i])?;
        enums.push(choices)?;
    }
    Ok(enums)
}

fn made_table<'a>(
    alloc: Global,
    files: &Joined<'a>,
    scopes: &SymbolTable<'a>,
) -> Result<Table, Memory>
    requires formed { IsFormed files.now }
    requires ordered { IsOrdered files.now }
    requires scopes { scopes.now ≡ files.now }
    requires clean { HasNoViolation files.now }
    ensures { IfOk result (IsMadeTable files.now) }
{
    let plan = plan_of(alloc, files)?;
    let messages = messages_in(alloc, files, scopes, &plan)?;
    let enums = enums_in(alloc, files, &plan)?;
    let methods = methods_in(alloc, files, scopes, &plan)?;
    Ok(Table {
        messages,
        enums,
        methods,
    })
}

// The table of files without a violation.
pub(crate) fn table_of<'a>(
    alloc: Global,
    files: &Joined<'a>,
    scopes: &SymbolTable<'a>,
) -> Result<Table, Memory>
    requires formed { IsFormed files.now }
    requires ordered { IsOrdered files.now }
    requires scopes { scopes.now ≡ files.now }
    requires clean { HasNoViolation files.now }
    ensures { IfOk result (λ t. IsTableOf files.now t) }
{
    made_table(alloc, files, scopes)
}
