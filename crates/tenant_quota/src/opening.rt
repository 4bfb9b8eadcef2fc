//! Opens quotas.

ghost use Rattle.std.specs.Prelude.{◌≡◌, ◌≤◌, [], IfOk};
ghost use Rattle.mrpc_base.specs.declared.tickets.TheConstants.{WINDOWS};
ghost use Rattle.tenant_quota.specs.Drawing.{all_shares};

use crate::seat::Seat;
use crate::view::Table;
use std::alloc::{AllocError, Global};
use std::sync::Arc;

/// Opens a quota of `windows` windows, without any draws. Its one seat has all shares.
pub fn open(alloc: Global, windows: u64) -> Result<Seat, AllocError>
    requires at_least { 1 ≤ windows }
    requires at_most { windows ≤ WINDOWS }

    ensures windows { IfOk result (λ seat. seat.quota.words ≡ windows) }
    ensures undrawn { IfOk result (λ seat. seat.draws ≡ []) }
    ensures whole { IfOk result (λ seat. seat.share ≡ all_shares) }
{
    let zeros = vec![in alloc; 0u64; windows as usize]?;
    let (table, seat) = Table::of_words(alloc, zeros.as_slice(), &windows)?;
    Ok(Seat {
        words: Arc::new(alloc, table)?,
        seat,
    })
}
