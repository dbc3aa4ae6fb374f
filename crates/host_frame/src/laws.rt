//! Laws of frames.

ghost use Rattle.std.specs.Prelude.{◌≡◌, List, ℕ};
ghost use Rattle.std.specs.Prelude.{◌+◌, ◌≤◌, ◌<◌, length, slice_index, Some};
ghost use Rattle.host_frame.specs.declared.frame.Frame.{Frame};
ghost use Rattle.host_frame.specs.Reading.{frame_at, told_length};
ghost use Rattle.host_frame.specs.Spelling.{CanBeSpelled, FitsFrame, HasOrder, ReadsBack, Spells, spelled};

/// Bytes that are read as a frame are its spelling, or the one that it has beside: of a boot without limits.
pub fn what_is_read_is_spelled()
    ensures { (bytes : List ℕ) (f : Frame) → ((i : ℕ) → slice_index bytes i < 256) → 13 ≤ length bytes →
        length bytes ≡ 4 + told_length bytes → frame_at bytes ≡ Some f → Spells bytes f × FitsFrame f }
{}

/// A frame's spelling is read as that frame.
pub fn what_is_spelled_is_read()
    ensures { (f : Frame) → FitsFrame f → frame_at (spelled f) ≡ Some f }
{}

/// A frame that is encoded is read again, but for an outcome whose lists are out of order.
pub fn what_is_encoded_reads_back()
    ensures back { (f : Frame) → CanBeSpelled f → ReadsBack f }
    ensures fits { (f : Frame) → CanBeSpelled f → HasOrder f.body → FitsFrame f }
{}
