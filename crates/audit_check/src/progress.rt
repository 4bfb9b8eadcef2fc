//! Progress through a text.

ghost use Rattle.std.specs.Prelude.{◌≡◌, ◌+◌, ◌<◌, ◌^◌, ℕ, List, [], IfOk, MatchResult};
ghost use Rattle.mrpc_table.specs.Valid.{IsValid};
ghost use Rattle.mrpc_table.specs.declared.table.Table.{Table};
ghost use Rattle.call_history.specs.Legal.{History};
ghost use Rattle.audit_text.specs.HappeningRefs.{connection_event_of_ref};
ghost use Rattle.audit_text.specs.declared.line.AuditLine.TheVariants as lines;
ghost use Rattle.audit_check.specs.Checking.{IsCheckOfHistory, StandsLine};
ghost use Rattle.audit_check.specs.TextProgress.{IsFaultOfLine, IsSomeProgress, IsProgress, IsReadableLine, IsProgressAfterLine};

use crate::checked::Checked;
use crate::connections::Checkers;
use crate::listing::PendingLine;
use crate::stage::Stage;
use audit_text::{AuditFault, AuditLine, HappenedRef};
use mrpc_table::{Memory, Table};
use std::alloc::Global;

// How many lines of each kind were read, and how they are judged.
#[derive(Drop)]
pub(crate) struct TextProgress {
    pub happenings: u64,
    pub stands: u64,
    pub stage: Stage,
}

impl TextProgress {
    // No line yet.
    pub(crate) fn new(alloc: Global, limit: u64) -> Result<TextProgress, Memory>
        ensures { IfOk result (λ p. (T : Table) → IsProgress T limit [] [] p) }
    {
        Ok(TextProgress {
            happenings: 0,
            stands: 0,
            stage: Stage::Events(Checkers::new(alloc, limit)?),
        })
    }

    // The number of the next line, counted from 1.
    pub(crate) fn next_line(&self) -> u64
        requires { self.now.happenings + self.now.stands + 1 < 2 ^ 64 }
        ensures { result ≡ self.now.happenings + self.now.stands + 1 }
    {
        self.happenings + self.stands + 1
    }

    // Applies the next line. `Bad` comes exactly if it is an event's after the line of a pending call.
    pub(crate) fn take(
        &mut self,
        alloc: Global,
        table: &Table,
        line: AuditLine,
    ) -> Result<(), AuditFault>
        requires valid { IsValid table.now }
        requires readable { IsReadableLine table.now line }
        requires few { self.old.happenings + self.old.stands + 3 < 2 ^ 32 }
        requires familiar { IsSomeProgress table.now self.old }
        ensures { (limit : ℕ) (h : History) (told : List StandsLine) → IsProgress table.now limit h told self.old
            → MatchResult result (λ _. IsProgressAfterLine table.now limit h told line self.new)
            (IsFaultOfLine h told line) }
    {
        let number = self.next_line();
        match line {
            AuditLine::Happened(next) => {
                if self.stands > 0 {
                    return Err(AuditFault::Bad { line: number });
                }
                self.stage.apply_event(alloc, table, next, number)?;
                self.happenings += 1;
                Ok(())
            }
            AuditLine::Stands {
                conn,
                seq,
                position,
                name,
                holding,
            } => {
                let told = PendingLine {
                    conn,
                    seq,
                    position,
                    name,
                    holding,
                };
                self.stage.apply_pending_line(table, told, number)?;
                self.stands += 1;
                Ok(())
            }
        }
    }

    // Like `take`, for the line of a note or a send.
    pub(crate) fn take_call_event(
        &mut self,
        alloc: Global,
        table: &Table,
        next: HappenedRef<'_>,
    ) -> Result<(), AuditFault>
        requires valid { IsValid table.now }
        requires few { self.old.happenings + self.old.stands + 3 < 2 ^ 32 }
        requires familiar { IsSomeProgress table.now self.old }
        ensures { (limit : ℕ) (h : History) (told : List StandsLine) → IsProgress table.now limit h told self.old
            → MatchResult result (λ _. IsProgressAfterLine table.now limit h told
            (lines.Happened (connection_event_of_ref next.entry)) self.new)
            (IsFaultOfLine h told (lines.Happened (connection_event_of_ref next.entry))) }
    {
        let number = self.next_line();
        if self.stands > 0 {
            return Err(AuditFault::Bad { line: number });
        }
        self.stage.apply_call_event(alloc, table, next, number)?;
        self.happenings += 1;
        Ok(())
    }

    // The result of a text that ends here.
    pub(crate) fn end(self) -> Result<Checked, Memory>
        requires few { self.happenings + self.stands + 1 < 2 ^ 64 }
        requires familiar { (T : Table) × IsSomeProgress T self }
        ensures { (T : Table) (limit : ℕ) (h : History) (told : List StandsLine) → IsProgress T limit h told self
            → IfOk result (IsCheckOfHistory T limit h told) }
    {
        self.stage.end(self.happenings, self.stands)
    }
}
