//! Arguments of calls.

ghost use Rattle.std.specs.Prelude.{◌≡◌, ◌<◌};
ghost use Rattle.lx_sig.specs.Calls.{low_argument as low_argument_of};

use lx_abi::Call;

/// The low 32 bits of an argument.
pub fn low_argument(call: &Call, n: usize) -> u32
    requires { n < 6 }
    ensures { result ≡ low_argument_of call.now n }
{
    (call.arguments[n] & 0xffff_ffff) as u32
}
