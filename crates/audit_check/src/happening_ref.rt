//! Notes and sends, as their lines have them.

ghost use Rattle.std.specs.Prelude.{◌≡◌, ◌∷◌, IfNone, IfOk, IfSome};
ghost use Rattle.mrpc_table.specs.Valid.{IsValid};
ghost use Rattle.mrpc_table.specs.declared.table.Table.{Table as TheTable};
ghost use Rattle.call_history.specs.Trace.{Trace};
ghost use Rattle.call_history.specs.Rules.{CanFollow};
ghost use Rattle.audit_text.specs.HappeningRefs.{event_of_ref, connection_event_of_ref};
ghost use Rattle.audit_rules.specs.BrokenRules.{IsFirstBrokenRule};
ghost use Rattle.audit_rules.specs.CheckerState.{IsKnowing, IsCheckerAfter, checker_context};

use audit_rules::{Checker, Rule};
use audit_text::{HappenedRef, HappeningRef};
use call_history::{ConnectionEvent, Happening};
use mrpc_table::{Memory, Name, Table};
use std::alloc::Global;

// Checks a note or a send by the checker of its connection. It allocates no memory.
pub(crate) fn check_ref(
    checker: &mut Checker,
    table: &Table,
    what: HappeningRef<'_>,
) -> Option<Rule>
    requires valid { IsValid table.now }
    requires knowing { IsKnowing table.now checker.old }
    ensures may { (past : Trace) → IsCheckerAfter table.now past checker.old
        → IfNone result (CanFollow (checker_context table.now checker.old) past (event_of_ref what.entry)) }
    ensures knows { (past : Trace) → IsCheckerAfter table.now past checker.old
        → IfNone result (IsCheckerAfter table.now (event_of_ref what.entry ∷ past) checker.new) }
    ensures breaks { (past : Trace) → IsCheckerAfter table.now past checker.old
        → IfSome result (λ rule. IsFirstBrokenRule (checker_context table.now checker.old) past
        (event_of_ref what.entry) rule) }
    ensures same { (T : TheTable) → checker_context T checker.new ≡ checker_context T checker.old }
{
    match what {
        HappeningRef::Charged { seq, name, level } => checker.check_charged(
            table, seq, name, level,
        ),
        HappeningRef::Drawn {
            seq,
            name,
            window,
            ticket,
        } => checker.check_drawn(table, seq, name, window, ticket),
        HappeningRef::Counted { seq, name } => checker.check_counted(table, seq, name),
        HappeningRef::Sent { seq, bytes } => checker.check_sent(table, seq, bytes),
    }
}

// Makes the event of a line, with an owned name.
#[inline(never)]
pub(crate) fn connection_event_of_ref(
    alloc: Global,
    next: HappenedRef<'_>,
) -> Result<ConnectionEvent, Memory>
    ensures { IfOk result (λ h. h ≡ connection_event_of_ref next.entry) }
{
    let conn = next.conn;
    let what = event_of_ref(alloc, next.what)?;
    Ok(ConnectionEvent { conn, what })
}

fn event_of_ref(alloc: Global, what: HappeningRef<'_>) -> Result<Happening, Memory>
    ensures { IfOk result (λ h. h ≡ event_of_ref what.entry) }
{
    match what {
        HappeningRef::Charged { seq, name, level } => {
            let name = Name::from_slice(alloc, name)?;
            Ok(Happening::Charged { seq, name, level })
        }
        HappeningRef::Drawn {
            seq,
            name,
            window,
            ticket,
        } => {
            let name = Name::from_slice(alloc, name)?;
            Ok(Happening::Drawn {
                seq,
                name,
                window,
                ticket,
            })
        }
        HappeningRef::Counted { seq, name } => {
            let name = Name::from_slice(alloc, name)?;
            Ok(Happening::Counted { seq, name })
        }
        HappeningRef::Sent { seq, bytes } => Ok(Happening::Sent { seq, bytes }),
    }
}
