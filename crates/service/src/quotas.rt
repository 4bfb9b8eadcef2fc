//! The seats of a run at the quotas of its tenants.

ghost use Rattle.std.specs.Prelude.{◌≡◌, [], IfOk, All, length};
ghost use Rattle.tenant_quota.specs.Drawing.{all_shares};

use mrpc_base::WINDOWS;
use mrpc_table::Memory;
use run_plan::Plan;
use std::alloc::Global;
use tenant_quota::Seats;

// A new quota for each tenant, with a single seat.
pub(crate) fn all_seats(alloc: Global, plan: &Plan) -> Result<Seats, Memory>
    ensures tenants { IfOk result (λ seats. length seats ≡ length plan.now.declared.tenants) }
    ensures shares { IfOk result (λ seats. All (λ seat. seat.share ≡ all_shares) seats) }
    ensures not_drawn { IfOk result (λ seats. All (λ seat. seat.draws ≡ []) seats) }
{
    let mut seats = Seats::new(alloc);
    let tenants = plan.declared.tenants();
    'tenants: for _tenant in tenants {
        let seat = tenant_quota::open(alloc, WINDOWS)?;
        seats.push(seat)?;
    }
    Ok(seats)
}
