//! The first state of a kernel.

ghost use Rattle.std.specs.Prelude.{◌≡◌, ◌≤◌, IfOk, OnOk, IfErr, IsTrue, None, Some};
ghost use Rattle.lx_abi.specs.Limits.{are_limits};
ghost use Rattle.lx_boot.specs.Boots.{fault_of as fault_in, Refuses};
ghost use Rattle.lx_kernel.specs.First.{first_run, first_run_without_log};
ghost use Rattle.lx_exec.specs.Programs.{start_size};
ghost use Rattle.lx_abi.specs.Limits.{start_limit};
ghost use Rattle.lx_boot.specs.declared.boots.BootFault.{BootFault};
ghost use Rattle.std.specs.declared.result.Result.TheVariants.{Err};

use crate::kernel::Kernel;
use lx_abi::{Boot, Script};
use lx_boot::{BootFault, boot_fault, first_shared, first_tasks};
use std::alloc::{AllocError, Global};

/// The kernel of an accepted boot.
fn first(alloc: Global, boot: Boot, script: Script, keeps_log: bool) -> Result<Kernel, AllocError>
    requires in_range { IsTrue (are_limits boot.limits) }
    requires fits { start_size boot.argv boot.env ≤ start_limit }
    ensures { IfOk result (λ k. k ≡ record (first_run boot script) { keeps_log = keeps_log }) }
{
    let Boot {
        limits,
        files,
        argv,
        env,
        input,
        follow,
    } = boot;
    let tasks = first_tasks(alloc, argv.as_slice(), env.as_slice())?;
    let shared = first_shared(alloc, limits, files.as_slice(), input)?;
    Ok(Kernel::new(alloc, shared, tasks, script, follow, keeps_log))
}

impl Kernel {
    /// A kernel with process 1 alone, in a first program that is execve of argv[0]. It keeps its log.
    pub fn boot(alloc: Global, boot: Boot, script: Script) -> Result<Self, BootFault>
        ensures first { IfOk result (λ k. k ≡ first_run boot script) }
        ensures accepted { OnOk result (fault_in boot ≡ None) }
        ensures fault { IfErr result (Refuses boot) }

        // A boot with a fault is refused with it, whatever the memory.
        ensures refused { (e : BootFault) → fault_in boot ≡ Some e → result ≡ Err e }
    {
        if let Some(fault) = boot_fault(alloc, &boot) {
            return Err(fault);
        }
        let kernel = first(alloc, boot, script, true)?;
        Ok(kernel)
    }

    /// The same, but that its log isn't kept: it takes no memory.
    pub fn boot_without_log(alloc: Global, boot: Boot, script: Script) -> Result<Self, BootFault>
        ensures first { IfOk result (λ k. k ≡ first_run_without_log boot script) }
        ensures accepted { OnOk result (fault_in boot ≡ None) }
        ensures fault { IfErr result (Refuses boot) }

        // A boot with a fault is refused with it, whatever the memory.
        ensures refused { (e : BootFault) → fault_in boot ≡ Some e → result ≡ Err e }
    {
        if let Some(fault) = boot_fault(alloc, &boot) {
            return Err(fault);
        }
        let kernel = first(alloc, boot, script, false)?;
        Ok(kernel)
    }
}
