//! Laws of an input that is viewed, and of its decoding.

ghost use Rattle.std.specs.Prelude.{◌≡◌, ◌↔◌, ℕ, List, Option, drop};
ghost use Rattle.mrpc_table.specs.declared.table.Table.{Table};
ghost use Rattle.frame_transport.specs.declared.format.Frame.{Frame};
ghost use Rattle.text_commands.specs.Decoding.{AreLinesOf, IsCutAt, IsLineOfFrame};
ghost use Rattle.text_commands.specs.DecodeInput.{IsInputOf as DecodeHolds, IsInputTextFault as IsDecodeTextFault};
ghost use Rattle.frame_view.specs.Contents.{IsContentOf};
ghost use Rattle.frame_view.specs.Faults.{IsFaultOfNext};
ghost use Rattle.frame_view.specs.Input.{IsInputOf, IsInputTextFault};
ghost use Rattle.frame_view.specs.FrameRanges.{AreFramesBetween};
ghost use Rattle.frame_view.specs.declared.content.FrameContent.{FrameContent};
ghost use Rattle.frame_view.specs.Written.{HasViewedToFault, HasViewedText};
ghost use Rattle.decode_laws.specs.Decodings.{IsDecodable, IsDecodeFault};

use frame_transport::frames_join;
use text_commands::decoding_is_unique;

/// What `frame_view` returns for an input is what `decode` reads: the same table and stream, or the same
/// fault of the text. Each frame with content has a line of `decode`, and a fault after frames with lines is
/// one at which `decode` ends.
pub fn reader_agrees_with_decode()
    ensures parts { (text stream : List ℕ) (T : Table) → IsInputOf text T stream ↔ DecodeHolds text T stream }
    ensures of_text { (text word : List ℕ) (line : ℕ)
        → IsInputTextFault text line word ↔ IsDecodeTextFault text line word }
    ensures line { (T : Table) (f : Frame) (content : FrameContent) → IsContentOf T f content
        → (line : List ℕ) × IsLineOfFrame T f line }
    ensures of_frames { (T : Table) (stream lines word : List ℕ) (to place : ℕ) (fs : List Frame)
        → AreFramesBetween stream 0 to fs → AreLinesOf T fs lines → IsFaultOfNext T to (drop to stream) place word
        → IsCutAt T 0 stream lines place word }
{
    frames_join();
}

/// If a fault ends a view of frames, it is the first fault for `decode`; and if all frames are viewed,
/// `decode` prints all of them. A text has at most one first fault for `decode`, and none if it prints all of
/// it.
pub fn view_agrees_with_decode()
    ensures cut { (text word : List ℕ) (place : ℕ) (out out' : Option (List ℕ))
        → HasViewedToFault text out out' place word
        → IsDecodeFault text place word }
    ensures done { (text : List ℕ) (out out' : Option (List ℕ)) → HasViewedText text out out' → IsDecodable text }
    ensures one_fault { (text word spelled : List ℕ) (place at : ℕ) → IsDecodeFault text place word
        → IsDecodeFault text at spelled → (place ≡ at) × (word ≡ spelled) }
    ensures never_both { (text word : List ℕ) (place : ℕ) → IsDecodable text → IsDecodeFault text place word → ⊥ }
{
    reader_agrees_with_decode();
    decoding_is_unique();
}
