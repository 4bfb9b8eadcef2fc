//! The methods of a table.

ghost use Rattle.std.specs.Prelude.{◌≡◌, ◌<◌, List, ◌++◌, length, IfOk, OnOk, Contains};
ghost use Rattle.mrpc_table.specs.declared.table.Table.{Table};
ghost use Rattle.proto_ast.specs.declared.file.ServiceDecl.{ServiceDecl};
ghost use Rattle.proto_ast.specs.declared.file.RpcDecl.{RpcDecl};
ghost use Rattle.proto_ast.specs.Together.{IsFormed, IsOrdered};
ghost use Rattle.proto_ast.specs.Joined.{package_at};
ghost use Rattle.schema_validation.specs.Methods.{rpcs_of, service_rpcs};
ghost use Rattle.schema_validation.specs.Members.{IsNoMessage};
ghost use Rattle.schema_resolve.specs.Resolving.{HasNoViolation};
ghost use Rattle.schema_resolve.specs.Placing.{ArePackageNames, IsTablePlan, HasTableNames};
ghost use Rattle.schema_resolve.specs.InOrder.{IsPlaceNamed, IsMethodIn, AreMethods};

use crate::plan::{TablePlan, qualified_name};
use mrpc_table::{Memory, Method, Methods, Sequence};
use proto_ast::{Joined, RpcDecl, ServiceDecl, Word};
use schema_symbols::SymbolTable;
use schema_validation::message_of;
use std::alloc::Global;

// The index of the message that the type of a file's rpc names.
fn message_place<'a>(scopes: &SymbolTable<'a>, file: usize, plan: &TablePlan, word: &'a Word) -> u32
    requires file { file < length scopes.now.heads }
    requires ordered { IsOrdered scopes.now }
    requires plan { IsTablePlan scopes.now plan.now }
    requires some { IsNoMessage scopes.now file (package_at scopes.now file) word.now.name → ⊥ }
    ensures { (T : Table) → HasTableNames plan.now T → IsPlaceNamed scopes.now file T word.now.name result }
{
    match message_of(scopes, file, word) {
        Some(message) => plan.messages.places[message],
        None => unreachable!(),
    }
}

fn method_in<'a>(
    alloc: Global,
    scopes: &SymbolTable<'a>,
    plan: &TablePlan,
    service: &'a ServiceDecl,
    rpc: &'a RpcDecl,
) -> Result<Method, Memory>
    requires formed { IsFormed scopes.now }
    requires ordered { IsOrdered scopes.now }
    requires clean { HasNoViolation scopes.now }
    requires fronts { ArePackageNames scopes.now plan.now.fronts.items }
    requires plan { IsTablePlan scopes.now plan.now }
    requires service { Contains scopes.now.services service.now }
    requires rpc { Contains service.now.rpcs rpc.now }
    ensures { IfOk result (λ m. (T : Table) → HasTableNames plan.now T
        → IsMethodIn scopes.now T (service.now, rpc.now) m) }
{
    let input = message_place(scopes, service.file, plan, &rpc.input);
    let output = message_place(scopes, service.file, plan, &rpc.output);
    let name = rpc.name.name.copied(alloc)?;
    Ok(Method {
        service: qualified_name(alloc, &plan.fronts[service.file], &service.name)?,
        name,
        input,
        output,
    })
}

// Appends the methods of a service.
fn add_methods<'a>(
    alloc: Global,
    scopes: &SymbolTable<'a>,
    plan: &TablePlan,
    service: &'a ServiceDecl,
    methods: &mut Methods,
) -> Result<(), Memory>
    requires formed { IsFormed scopes.now }
    requires ordered { IsOrdered scopes.now }
    requires clean { HasNoViolation scopes.now }
    requires fronts { ArePackageNames scopes.now plan.now.fronts.items }
    requires plan { IsTablePlan scopes.now plan.now }
    requires service { Contains scopes.now.services service.now }
    ensures { OnOk result ((done : List (ServiceDecl × RpcDecl)) → AreMethods scopes.now plan.now done methods.old
        → AreMethods scopes.now plan.now (done ++ service_rpcs service.now) methods.new) }
{
    let rpcs = service.rpcs.as_slice();
    for i in 0..rpcs.len() {
        let method = method_in(alloc, scopes, plan, service, &rpcs[i])?;
        methods.push(method)?;
    }
    Ok(())
}

// The methods of files without a violation.
pub(crate) fn methods_in<'a>(
    alloc: Global,
    files: &Joined<'a>,
    scopes: &SymbolTable<'a>,
    plan: &TablePlan,
) -> Result<Methods, Memory>
    requires formed { IsFormed files.now }
    requires ordered { IsOrdered files.now }
    requires scopes { scopes.now ≡ files.now }
    requires clean { HasNoViolation files.now }
    requires fronts { ArePackageNames files.now plan.now.fronts.items }
    requires plan { IsTablePlan files.now plan.now }
    ensures { IfOk result (AreMethods files.now plan.now (rpcs_of files.now)) }
{
    let mut methods = Sequence::new(alloc);
    let services = files.services();
    for i in 0..services.len() {
        add_methods(alloc, scopes, plan, &services[i], &mut methods)?;
    }
    Ok(methods)
}
