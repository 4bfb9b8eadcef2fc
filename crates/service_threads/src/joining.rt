//! Seats of connections, joined again.

ghost use Rattle.std.specs.Prelude.{◌≡◌, ℕ, List, All, Some};
ghost use Rattle.std.specs.List.{AllZip};
ghost use Rattle.tenant_quota.specs.Drawing.{AreLater, Drawing, tickets_of_tenant, quotas_of, shares_of};
ghost use Rattle.service_threads.specs.Joining.{IsSeatSplit, all_joined, joined_tickets};

use tenant_quota::{Seats, join_undoes_split};

/// Joins other seats of the same quotas, each with its draws and its shares. Never blocks or allocates.
pub fn join_all(seats: &mut Seats, mut others: Vec<Seats>)
    requires { All (λ own. quotas_of own ≡ quotas_of seats.old) others.items }
    ensures joined { seats.new ≡ all_joined seats.old others.items }
    ensures quotas { quotas_of seats.new ≡ quotas_of seats.old }
{
    join_undoes_split();
    while let Some(own) = others.pop() {
        seats.join(own);
    }
}

/// Seats that were split and joined again have all shares that there were, even if others drew meanwhile. For each
/// window they then know the tickets of all. The function does nothing.
pub fn seats_join_again()
    ensures shares { (whole rest : List Drawing) (owns laters : List (List Drawing)) → IsSeatSplit whole owns rest
        → AllZip AreLater owns laters → shares_of (all_joined rest laters) ≡ shares_of whole }
    ensures drawn { (tenant window : ℕ) (seats : List Drawing) (before : List ℕ) (others : List (List Drawing))
        (told : List (List ℕ)) → tickets_of_tenant seats tenant window ≡ Some before
        → AllZip (λ own tickets. tickets_of_tenant own tenant window ≡ Some tickets) others told
        → tickets_of_tenant (all_joined seats others) tenant window ≡ Some (joined_tickets before told) }
{
    join_undoes_split();
}
