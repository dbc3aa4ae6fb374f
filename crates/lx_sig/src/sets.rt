//! Sets of signals: signal n is bit n - 1.

ghost use Rattle.std.specs.Prelude.{◌≡◌, ◌<◌};
ghost use Rattle.lx_sig.specs.Sets.{has as is_in, cleaned, with_bit};

/// The bits of signals 1 to 31, without SIGKILL's and SIGSTOP's.
const BLOCKABLE: u64 = 0x7ffb_feff;

/// The signal with this number is in a set.
pub(crate) fn has(set: u64, number: u8) -> bool
    requires positive { 0 < number }
    requires within { number < 32 }
    ensures { result ≡ is_in set number }
{
    (set / (1u64 << (number - 1))) % 2 == 1
}

/// A set as it can block: SIGKILL and numbers over 31 are dropped.
pub(crate) fn clean(set: u64) -> u64
    ensures { result ≡ cleaned set }
{
    set & BLOCKABLE
}

/// A set with the signal of this number in it.
pub(crate) fn with(set: u64, number: u8) -> u64
    requires positive { 0 < number }
    requires within { number < 32 }
    ensures { result ≡ with_bit set number }
{
    set | 1u64 << (number - 1)
}
