//! Laws of links.

ghost use Rattle.std.specs.Prelude.{◌≡◌, ◌<◌, ◌^◌, true, false, Bool, Ok, Err, Option, List, ℕ};
ghost use Rattle.lx_abi.specs.declared.ptrace.Reply.{Reply};
ghost use Rattle.lx_abi.specs.declared.ptrace.Request.{Request};
ghost use Rattle.pt_kernel.specs.Hosts.{is_boot};
ghost use Rattle.pt_model.specs.Admissible.{answers};
ghost use Rattle.host_frame.specs.declared.frame.Frame.{Frame};
ghost use Rattle.host_wire.specs.Ends.{Input};
ghost use Rattle.host_link.specs.LocalLinks.{Calls, IsIdle, faults_of, given_of};
ghost use Rattle.host_link.specs.declared.fault.LinkFault.{LinkFault};
ghost use Rattle.host_link.specs.declared.fault.LinkFault.TheVariants.{Memory, Read};
ghost use Rattle.host_link.specs.declared.local.LocalLink.{LocalLink};
ghost use Rattle.host_link.specs.LinkLists.{FirstLinksServe, LinksServeLists, ListsFailForMemory, ListsHaveOneAnswer};
ghost use Rattle.host_link.specs.Pipes.{Exchanged, request_frame};

use host_wire::laws::bytes_without_a_frame_are_few;
use lx_proc::{Shared, UserState};
use pt_kernel::laws::hosts_are_called;
use pt_model::laws::hosts_run_alike;

/// Behind a reply no request is pending.
pub fn replies_leave_links_idle()
    ensures { (a b : LocalLink) (q : Request) (r : Reply) → Calls a q (Ok r) b → IsIdle b }
{}

/// A link that has met no fault, and where no request is pending, has one fault: memory was refused.
pub fn idle_links_fail_for_memory()
    ensures { (a b : LocalLink) (q : Request) (f : LinkFault) → faults_of a ≡ 0 → given_of a < 2 ^ 40 → IsIdle a →
        is_boot q ≡ false → Calls a q (Err f) b → f ≡ Memory }
{}

/// Over pipes a reply is of a kind that answers its request, even where nothing is known of the bytes.
pub fn replies_over_pipes_fit()
    ensures { (most number : ℕ) (q : Request) (ahead : Bool) (r : Reply) (a b : Input) (old new : Option (List ℕ))
        (puts puts' : List ℕ) (broken_writer : ℕ) →
        Exchanged most (request_frame number q) ahead a b old new puts puts' (Ok r) broken_writer
        → answers q r ≡ true }
{}

/// Over pipes that are given up after 2^32 reads a reply can't be read only where the reader has failed, even where
/// nothing is known of the bytes.
pub fn unread_replies_are_of_failed_readers()
    ensures { (sent : Frame) (ahead : Bool) (a b : Input) (old new : Option (List ℕ)) (puts puts' : List ℕ)
        (broken_writer : ℕ) → Exchanged (2 ^ 32) sent ahead a b old new puts puts' (Err Read) broken_writer
        → b.broken ≡ 1 }
{
    bytes_without_a_frame_are_few();
}

/// A link in memory answers a list of requests as the ptrace machine does with this list in the place of a tracer's:
/// by all the events that its schedule gives to them, and OutOfTurns once the schedule has ended; and in no other way.
/// Behind fewer than 2^40 replies only memory fails it.
pub fn local_links_serve_lists()
    ensures first { FirstLinksServe }
    ensures lists { LinksServeLists }
    ensures one { ListsHaveOneAnswer }
    ensures faults { ListsFailForMemory }
{
    hosts_are_called();
    hosts_run_alike::<Shared, UserState>();
}
