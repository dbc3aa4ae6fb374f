//! What the tests of whole runs begin with.

use containers::{Bytes, Content, Seq};
use lx_abi::{Boot, GuestFile, Limits, Script};
use lx_boot::BootFault;
use pt_kernel::Schedule;
use rv_asm::assemble;
use std::alloc::Global;
use std::test::Fail;
use tr_core::Options;
use tr_expr::parse_trace;
use trace_run::local::Run;
use trace_run::run_local;

/// A boot of a listing's program at a path, which is run as `/p`.
pub(crate) fn boot(alloc: Global, path: &str, listing: &str, follow: bool) -> Result<Boot, Fail> {
    let image = assemble(alloc, listing)?;
    let mut files = Seq::new(alloc);
    files.push(GuestFile {
        path: Bytes::from_slice(alloc, path.as_bytes())?,
        content: Content::from_bytes(alloc, Bytes::from_vec(elf_image::write(alloc, &image)?))?,
    })?;
    let mut argv = Seq::new(alloc);
    argv.push(Bytes::from_slice(alloc, b"/p")?)?;
    Ok(Boot {
        limits: Limits::WIDEST,
        files,
        argv,
        env: Seq::new(alloc),
        input: Bytes::new(alloc),
        follow,
    })
}

/// Every call is shown. The options' own follow isn't that of the boot, which counts.
pub(crate) fn options(alloc: Global, follow: bool) -> Result<Options, Fail> {
    Ok(Options {
        follow: !follow,
        shown: parse_trace(alloc, "all")?,
        string_limit: 32,
        width: 40,
    })
}

/// Boots and traces in this process, without clauses.
pub(crate) fn run_here(
    alloc: Global,
    boot: Boot,
    schedule: Schedule,
    script: Script,
    options: Options,
) -> Result<Run, BootFault> {
    run_local(alloc, boot, schedule, script, options)
}

/// The run of a boot that is accepted.
pub(crate) fn accepted(run: Result<Run, BootFault>) -> Result<Run, Fail> {
    match run {
        Ok(run) => Ok(run),
        Err(_) => Err(Fail::from("the boot is accepted")),
    }
}
