//! A run with its trace.

ghost use Rattle.std.specs.Prelude.{◌≡◌, IfOk};
ghost use Rattle.plain_trace.specs.Traces.{IsTrace};

use crate::trace::Trace;
use containers::Bytes;
use lx_kernel::Kernel;
use plain_run::Halt;
use pt_schedule::Schedule;
use std::alloc::{AllocError, Global};
use tr_core::Options;
use tr_line::printer_writes_the_rendering;

/// Makes the turns that a schedule gives, up to its end, and gives their trace.
pub fn run(
    alloc: Global,
    kernel: &mut Kernel,
    schedule: &mut Schedule,
    options: Options,
) -> Result<Bytes, AllocError>
    ensures { IfOk result (IsTrace options kernel.old schedule.old kernel.new) }
{
    printer_writes_the_rendering();
    let mut trace = Trace::new(alloc, options);
    match plain_run::run(kernel, schedule, &mut trace) {
        Ok(()) => {
            let bytes = trace.into_bytes()?;
            Ok(bytes)
        }
        Err(Halt::Memory | Halt::Weary) => Err(AllocError),
    }
}
