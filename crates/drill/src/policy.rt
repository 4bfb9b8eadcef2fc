//! The access policy of the drill.

ghost use Rattle.std.specs.Prelude.{◌≡◌, [], ◌∷◌, IfOk};
ghost use Rattle.drill.specs.Drill.{acl, big_line, default_line, only_acl, schema};

use crate::schema::name;
use engine_core::Policy;
use mrpc_table::{Bytes, Lines, Memory, RuleFault, Table};
use policy_access::{Access, read_access};
use policy_declarations::{Declaration, Declarations, NamedPolicy};
use std::alloc::Global;

// The rule that denies requests with values above 49.
const BIG: &[u8] = b"rule big deny method 0 where 1 gt 49";

// Allows everything else.
const DEFAULT: &[u8] = b"default allow";

// The declarations of the plan: no tenant, and this policy alone.
pub(crate) fn declared(alloc: Global, table: &Table) -> Result<Declarations, Memory>
    requires { table.now ≡ schema }
    ensures { IfOk result (λ d. d ≡ only_acl) }
{
    let policy = NamedPolicy {
        name: name(alloc, b"acl")?,
        policy: Policy::Access(acl(alloc, table)?),
    };
    Declarations::new(alloc).with(alloc, Declaration::Policy(policy))
}

// The policy of the two lines, which have no fault.
fn acl(alloc: Global, table: &Table) -> Result<Access, Memory>
    requires { table.now ≡ schema }
    ensures { IfOk result (λ policy. policy ≡ acl) }
{
    let lines = lines(alloc)?;
    match read_access(alloc, &lines, table) {
        Ok(access) => Ok(access),
        Err(RuleFault::Memory) => Err(Memory),
        Err(RuleFault::At { .. }) => unreachable!(),
    }
}

fn lines(alloc: Global) -> Result<Lines, Memory>
    ensures { IfOk result (λ lines. lines ≡ big_line ∷ default_line ∷ []) }
{
    let mut lines = Lines::new(alloc);
    lines.push(Bytes::from_slice(alloc, BIG)?)?;
    lines.push(Bytes::from_slice(alloc, DEFAULT)?)?;
    Ok(lines)
}
