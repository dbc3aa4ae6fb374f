//! Laws of recorded bytes.

ghost use Rattle.host_ends.specs.Recorded.{EndsAgree, FaultsAreCaused, RepliesAreThose};

use host_frame::laws::what_is_encoded_reads_back;
use host_wire::laws::{first_frames_are_read, pieces_join, spelled_frames_are_read};

/// A link over the bytes that a host wrote is given the host's replies, one by one in their order, whatever it asks and
/// however the bytes are cut; and a fault where a reply is due is one of its reader, of memory, or of a reply that
/// doesn't answer what was asked.
pub fn recorded_replies_are_given()
    ensures replies { RepliesAreThose }
    ensures faults { FaultsAreCaused }
{
    what_is_encoded_reads_back();
    first_frames_are_read();
    spelled_frames_are_read();
    pieces_join();
}

/// Two ends of which each was given a beginning of what the other wrote had the same exchanges, as far as replies came.
pub fn ends_agree()
    ensures { EndsAgree }
{
    first_frames_are_read();
}
