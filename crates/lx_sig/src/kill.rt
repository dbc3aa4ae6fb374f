//! kill (kill(2)).

ghost use Rattle.std.specs.Prelude.{◌≡◌};
ghost use Rattle.lx_sig.specs.Kill.{aim as aim_of, aimed};

use crate::arguments::low_argument;
use crate::sigaction::is_known;
use lx_abi::{Call, Signal};

/// Whom a kill means, and the signal, where it sends one.
#[derive(Clone, Copy, Debug, PartialEq, Eq)]
pub struct Aim {
    pub pid: u32,
    pub signal: Option<Signal>,
}

fn aim_at(pid: u32, number: u32) -> Option<Aim>
    ensures { result ≡ aimed pid number }
{
    if pid > 0 && pid < 1 << 31 && (number == 0 || is_known(number)) {
        return Some(Aim {
            pid,
            signal: Signal::from_number(u64::from(number)),
        });
    }
    None
}

/// What kill(pid, sig) asks for. None where that is EINVAL: a pid that isn't above 0, or a number that is neither 0 nor
/// a known signal's.
pub fn aim_of_kill(call: &Call) -> Option<Aim>
    ensures { result ≡ aim_of call.now }
{
    aim_at(low_argument(call, 0), low_argument(call, 1))
}
