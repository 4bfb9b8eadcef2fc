//! Laws of seats and shares. The functions have no effect: each clause is a law.

ghost use Rattle.std.specs.Prelude.{◌≡◌, ◌≤◌, ◌+◌, ◌/◌, ◌<◌, ◌++◌, ℕ, List, All, Some, map};
ghost use Rattle.tenant_quota.specs.Drawing.{AreLater, Drawing, IsShareAfter, all_shares, tickets_of_tenant};
ghost use Rattle.tenant_quota.specs.Drawing.{all_after_join, kept_half, new_half, quotas_of, shares_of};

/// A seat with all shares may be split 63 times: each time the remaining share may be split again, up to that number.
/// The same is true of each of several seats.
pub fn shares_suffice()
    ensures whole { IsShareAfter 0 all_shares }
    ensures once_more { (times share kept : ℕ) → IsShareAfter times share → kept + share / 2 ≡ share
        → IsShareAfter (times + 1) kept }
    ensures enough { (times share : ℕ) → IsShareAfter times share → times < 64 → 2 ≤ share }

    ensures seats_once_more { (times : ℕ) (seats : List Drawing) → All (λ seat. IsShareAfter times seat.share) seats
        → All (λ seat. IsShareAfter (times + 1) seat.share) (map kept_half seats) }
    ensures seats_enough { (times : ℕ) (seats : List Drawing) → All (λ seat. IsShareAfter times seat.share) seats
        → times < 64 → All (λ seat. 2 ≤ seat.share) seats }
{}

/// Seats that were split and joined again are as before. If they drew meanwhile, they have the quotas and the shares
/// that they had, and the tickets of a tenant's window are those that both drew.
pub fn join_undoes_split()
    ensures halves { (seats : List Drawing) → all_after_join (map kept_half seats) (map new_half seats) ≡ seats }
    ensures drawn { (seats others : List Drawing) (tenant window : ℕ) (mine theirs : List ℕ)
        → tickets_of_tenant seats tenant window ≡ Some mine → tickets_of_tenant others tenant window ≡ Some theirs
        → tickets_of_tenant (all_after_join seats others) tenant window ≡ Some (mine ++ theirs) }

    ensures kept_quotas { (seats : List Drawing) → quotas_of (map kept_half seats) ≡ quotas_of seats }
    ensures new_quotas { (seats : List Drawing) → quotas_of (map new_half seats) ≡ quotas_of seats }
    ensures quotas { (seats others : List Drawing) → quotas_of (all_after_join seats others) ≡ quotas_of seats }
    ensures shares { (old new others later : List Drawing) → shares_of new ≡ shares_of old
        → shares_of later ≡ shares_of others
        → shares_of (all_after_join new later) ≡ shares_of (all_after_join old others) }

    ensures later_quotas { (old new : List Drawing) → AreLater old new → quotas_of new ≡ quotas_of old }
    ensures later_shares { (old new : List Drawing) → AreLater old new → shares_of new ≡ shares_of old }
    ensures all_shares { (old new : List Drawing) → shares_of new ≡ shares_of old
        → All (λ seat. seat.share ≡ all_shares) old → All (λ seat. seat.share ≡ all_shares) new }
{}

/// `AreLater` is reflexive and transitive.
pub fn since_is_transitive()
    ensures themselves { (seats : List Drawing) → AreLater seats seats }
    ensures later { (first next last : List Drawing) → AreLater first next → AreLater next last → AreLater first last }
{}
