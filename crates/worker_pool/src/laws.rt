//! The law of a pool's queue. The function has no effect: each clause is a law.

ghost use Rattle.std.specs.Prelude.{◌≡◌, ◌≢◌, ◌≤◌, ◌<◌, ◌+◌, ℕ, List, [], length};
ghost use mathlib.Core.Option.{some};
ghost use lib.ListN.{get_elem?};
ghost use Rattle.worker_pool.specs.declared.pass_view.PassView.{PassView};
ghost use Rattle.worker_pool.specs.declared.pass_view.NumberedItem.{NumberedItem};
ghost use Rattle.worker_pool.specs.declared.limits.TheConstants.{MAX_POOL_ITEMS};
ghost use Rattle.worker_pool.specs.Rule.{IsPooled, numbers_of, numbers_out, occurrences};

use crate::pool_item::PoolItem;

/// The law of item numbers, for any contents of a run's queue and any views of its passes. The number of each item
/// occurs once, in the queue or in one pass, and no other number occurs. So if a pass holds an item, as after taking
/// one, the queue has a free slot.
pub fn items_are_unique<T: PoolItem>()
    ensures once { (items : List (NumberedItem T)) (views : List (PassView T)) (rule : IsPooled T.since items views)
        (number : ℕ) → number < length rule.firsts
        → occurrences number (numbers_out views) + occurrences number (numbers_of items) ≡ 1 }
    ensures no_other { (items : List (NumberedItem T)) (views : List (PassView T)) (rule : IsPooled T.since items views)
        (number : ℕ) → length rule.firsts ≤ number
        → occurrences number (numbers_out views) + occurrences number (numbers_of items) ≡ 0 }
    ensures place { (items : List (NumberedItem T)) (views : List (PassView T)) (rule : IsPooled T.since items views)
        (pass : ℕ) (v : PassView T) → get_elem? views pass ≡ some v → v.held ≢ [] → length items < MAX_POOL_ITEMS }
{}
