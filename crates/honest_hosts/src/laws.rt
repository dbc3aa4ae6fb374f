//! What a host tells is read as what it is: its outcomes are in order, and none of its replies is malformed.

ghost use Rattle.honest_hosts.specs.Outcomes.{
  BootsLeaveOrder,
  HostsLeaveOrder,
  KernelsLeaveOrder,
  SoundStatesLeaveOrder,
  WorldsLeaveOrder,
};
ghost use Rattle.honest_hosts.specs.Replies.{HostFramesReadBack, HostsReplyInOrder, RepliesAreInOrder, RepliesReadBack};
ghost use Rattle.honest_hosts.specs.Bytes.{BytesAreFrames, NoReplyIsMalformed, NoReplyIsOutOfSequence};

use host_frame::laws::what_is_encoded_reads_back;
use host_wire::laws::{pieces_join, spelled_frames_are_read};
use lx_sound::laws::states_stay_sound;
use pt_sound::laws::traced_states_stay_sound;

/// The outcome of each state that a boot reaches is in order, traced or not: its paths rise in byte order, without the
/// root, and its pids rise.
pub fn outcomes_are_in_order()
    ensures sound { SoundStatesLeaveOrder }
    ensures kernels { KernelsLeaveOrder }
    ensures boots { BootsLeaveOrder }
    ensures worlds { WorldsLeaveOrder }
    ensures hosts { HostsLeaveOrder }
{
    states_stay_sound();
    traced_states_stay_sound();
}

/// Each reply of a host of a boot is in order, whatever it was asked; so each frame that `serve` makes of one is read
/// as that reply.
pub fn honest_replies_read_back()
    ensures host { HostsReplyInOrder }
    ensures frames { HostFramesReadBack }
    ensures served { RepliesAreInOrder }
    ensures back { RepliesReadBack }
{
    outcomes_are_in_order();
    what_is_encoded_reads_back();
}

/// Wherever what `serve` wrote is cut, it is whole frames and the beginning of one, however serving ended. So a link
/// that reads it, or a beginning of it, gets no reply that is Malformed or of another number, whatever it asks.
pub fn honest_bytes_are_frames()
    ensures frames { BytesAreFrames }
    ensures malformed { NoReplyIsMalformed }
    ensures sequence { NoReplyIsOutOfSequence }
{
    honest_replies_read_back();
    what_is_encoded_reads_back();
    pieces_join();
    spelled_frames_are_read();
}
