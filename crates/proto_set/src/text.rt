//! Offsets in concatenated texts.

ghost use Rattle.std.specs.Prelude.{◌≡◌, ℕ, ◌<◌, ◌≤◌, ◌↔◌, length, sum, IfSome, IsNone};
ghost use Rattle.proto_set.specs.Texts.{IsInTextOf};

/// Returns the index of the file that contains an offset of the concatenated texts, given the sizes of the texts;
/// `None` if the offset is past the last file. Takes time proportional to the number of texts.
pub fn file_at(sizes: &[usize], place: usize) -> Option<usize>
    ensures found { IfSome result (λ k. IsInTextOf sizes.now k place) }
    ensures there { IfSome result (λ k. k < length sizes.now) }
    ensures none { IsNone result ↔ (sum sizes.now ≤ place) }
{
    let mut rest = place;
    for (k, size) in sizes.iter().enumerate() {
        if rest < *size {
            return Some(k);
        }
        rest -= *size;
    }
    None
}
