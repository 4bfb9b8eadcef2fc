//! The slices of an echo's heap.

ghost use Rattle.std.specs.Prelude.{◌≡◌, ◌<◌, ◌≤◌, ◌+◌, ◌*◌, ◌^◌, ℕ};
ghost use Rattle.mrpc_table.specs.declared.limits.TheConstants.{MAX_HEAP};
ghost use Rattle.descriptor_ring.specs.declared.limits.TheConstants.{MAX_CAPACITY};
ghost use Rattle.app_stub.specs.Echoing.{IsInSlice, slice_at, slice_words};

/// A law; it does nothing. The slices of an echo are in its heap, after its first two words. The slices of two
/// replies fewer than `ring + 2` apart have no place in common. So two slices more than the ring's capacity are
/// enough. Suppose at most `ring` of the sent replies wait, and all taken replies but the last were copied. Then
/// the next reply's slice has no place of the slice of a reply that waits or is being copied.
pub fn slices_suffice()
    ensures in_heap { (heap ring replies place : ℕ) → 2 ≤ heap → IsInSlice heap ring replies place
        → (2 ≤ place) × (place < heap) }
    ensures apart { (heap ring i j place : ℕ) → i < j → j < i + (ring + 2)
        → IsInSlice heap ring i place → IsInSlice heap ring j place → ⊥ }
    ensures unused { (heap ring sent taken k place : ℕ) → sent ≤ taken + ring → taken ≤ k + 1 → k < sent
        → IsInSlice heap ring k place → IsInSlice heap ring sent place → ⊥ }
{}

// The size of each slice in words.
pub(crate) fn words_of(heap: u64, ring: u64) -> u64
    requires heap { (2 ≤ heap) × (heap ≤ MAX_HEAP) }
    requires ring { ring ≤ MAX_CAPACITY }
    ensures words { result ≡ slice_words heap ring }
    ensures few { result ≤ MAX_HEAP }
{
    (heap - 2) / (ring + 2)
}

// The first place of the next reply's slice.
pub(crate) fn next_slice(heap: u64, ring: u64, replies: u64) -> u64
    requires heap { (2 ≤ heap) × (heap ≤ MAX_HEAP) }
    requires ring { ring ≤ MAX_CAPACITY }
    ensures at { result ≡ slice_at heap ring replies }
    ensures in_heap { result + slice_words heap ring ≤ heap }
    ensures from { 2 ≤ result }
{
    2 + replies % (ring + 2) * words_of(heap, ring)
}
