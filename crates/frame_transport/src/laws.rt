//! Laws of all streams.

ghost use Rattle.std.specs.Prelude.{◌≡◌, ◌<◌, ◌+◌, ◌++◌, ℕ, List, [], length, All};
ghost use Rattle.frame_transport.specs.Frames.{AllStreamsSplit, IsSplitUnique, IsFaultStable, AllStreamsHaveFaultOrNone, IsFaultUnique, IsPartialBounded, IsFrame, bytes_of_frame, concat_frames, AreConsecutiveFrom, IsPartial, IsFaultAt, IsSplitOf};
ghost use Rattle.frame_transport.specs.declared.format.Frame.{Frame};
ghost use Rattle.frame_transport.specs.declared.format.TheConstants.{HEADER_LEN};
ghost use Rattle.frame_transport.specs.declared.fault.FeedFault.{FeedFault};

/// A stream of bytes splits into its frames in exactly one way, however it is split into pieces. It has exactly one
/// first fault, or none so far. A fault stays, together with the frames before it, whatever follows in the stream. The
/// call does nothing; its clauses are the laws.
pub fn split_is_unique()
    ensures splits { AllStreamsSplit }
    ensures once { IsSplitUnique }
    ensures stays { IsFaultStable }
    ensures ends { AllStreamsHaveFaultOrNone }
    ensures one_end { IsFaultUnique }
{}

/// A frame is determined by the bytes that start with it. It has a header of 16 bytes, and no fault is found before its
/// length is complete. A partial frame without a fault isn't longer than a frame with the largest payload.
pub fn frame_is_unique()
    ensures once { (f g : Frame) (more others : List ℕ) → IsFrame f → IsFrame g
        → bytes_of_frame f ++ more ≡ bytes_of_frame g ++ others
        → f.place ≡ g.place → (f ≡ g) × (more ≡ others) }
    ensures size { (f : Frame) → length (bytes_of_frame f) ≡ HEADER_LEN + length f.payload }
    ensures nothing { IsPartial [] }
    ensures short { (place : ℕ) (bytes : List ℕ) → length bytes < 4 → (fault : FeedFault) → IsFaultAt place bytes fault
        → ⊥ }
    ensures begun { IsPartialBounded }
{}

/// Frames followed by further frames are a sequence of frames.
pub fn frames_join()
    ensures places { (place : ℕ) (frames others : List Frame) → AreConsecutiveFrom place frames
        → AreConsecutiveFrom (place + length (concat_frames frames)) others → AreConsecutiveFrom place (frames ++ others) }
    ensures size { (frames others : List Frame)
        → length (concat_frames (frames ++ others)) ≡ length (concat_frames frames) + length (concat_frames others) }
    ensures splits { (place : ℕ) (frames others : List Frame) (stream rest : List ℕ) → All IsFrame frames
        → AreConsecutiveFrom place frames
        → IsSplitOf (place + length (concat_frames frames)) stream others rest
        → IsSplitOf place (concat_frames frames ++ stream) (frames ++ others) rest }
{}
