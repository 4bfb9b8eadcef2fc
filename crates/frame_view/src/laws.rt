//! Laws of frames that are read. The function does nothing; its clauses are the laws.

ghost use Rattle.std.specs.Prelude.{◌≡◌, ◌+◌, ◌≤◌, ◌∷◌, ◌++◌, ℕ, List, [], length, drop};
ghost use Rattle.frame_transport.specs.Frames.{IsSplitOf};
ghost use Rattle.frame_transport.specs.FramesInPlace.{IsFrameAt};
ghost use Rattle.frame_transport.specs.declared.format.Frame.{Frame};
ghost use Rattle.frame_transport.specs.declared.format.TheConstants.{HEADER_LEN};
ghost use Rattle.frame_view.specs.FrameRanges.{AreFramesBetween};

use frame_transport::{frame_is_unique, frames_join};

/// Consecutive frames followed by the next frame are consecutive frames. If the stream ends after them, they
/// are all of its frames.
pub fn frames_are_consecutive()
    ensures none { (stream : List ℕ) (from : ℕ) → AreFramesBetween stream from from [] }
    ensures one { (stream : List ℕ) (from to : ℕ) (f : Frame) → IsFrameAt from (drop from stream) f
        → to ≡ from + (HEADER_LEN + length f.payload) → AreFramesBetween stream from to (f ∷ []) }
    ensures more { (stream : List ℕ) (from mid to : ℕ) (fs gs : List Frame) → AreFramesBetween stream from mid fs
        → AreFramesBetween stream mid to gs → AreFramesBetween stream from to (fs ++ gs) }
    ensures all { (stream : List ℕ) (to : ℕ) (fs : List Frame) → AreFramesBetween stream 0 to fs → length stream ≤ to
        → IsSplitOf 0 stream fs [] }
{
    frame_is_unique();
    frames_join();
}
