//! The law of words `p` and `p.`, as the contract of a function with an empty body: call it to cite it.

ghost use Rattle.pt_kernel.specs.Eager.{EagerTurnsArePlain};

use crate::laws::linux_is_told;
use lx_turn::laws::linux_is_a_machine;

/// A traced run by words `p` and `p.`, or by the default schedule, makes the turns that these give to the untraced
/// kernel, and shows its whole log.
pub fn eager_turns_are_plain()
    ensures { EagerTurnsArePlain }
{
    linux_is_a_machine();
    linux_is_told();
}
