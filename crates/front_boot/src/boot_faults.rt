//! Why a boot is refused, and for which of its files or limits.

ghost use Rattle.std.specs.Prelude.{◌≡◌, IfErr, None, OnOk, codes, true};
ghost use Rattle.lx_boot.specs.Boots.{fault_of};
ghost use Rattle.front_boot.specs.Refusals.{RefusesBoot};
ghost use Rattle.front_end.specs.Statuses.{is_usage_or_memory};
ghost use Rattle.front_end.specs.Texts.{IsAbout};

use front_end::{Fault, Shown};
use lx_abi::{Boot, Limits};
use lx_boot::{BootFault, Culprit, boot_fault, find_culprit};
use std::alloc::{AllocError, Global};

/// The path of the file at this place in a boot.
fn path_at(boot: &Boot, at: usize) -> Shown<'_> {
    match boot.files.as_slice().get(at) {
        Some(file) => Shown(str::from_utf8(file.path.as_slice()).unwrap_or("")),
        None => Shown(""),
    }
}

/// A limit that is out of its range.
fn bad_limit(alloc: Global, name: &str, value: u32, most: u32) -> Result<String, AllocError> {
    format!(in alloc; ": {name} is {value}: it may be 1 to {most}")
}

/// A file, and what of it is too large.
fn too_large(alloc: Global, boot: &Boot, at: usize, what: &str) -> Result<String, AllocError> {
    format!(in alloc; ": {}: {what}", path_at(boot, at))
}

/// What a fault is found in, behind its text.
fn name_culprit(alloc: Global, boot: &Boot, culprit: Culprit) -> Result<String, AllocError> {
    let limits = boot.limits;
    let most = Limits::WIDEST;
    match culprit {
        Culprit::Path(at) | Culprit::Repeated(at) => format!(in alloc; ": {}", path_at(boot, at)),
        Culprit::Under(at, above) => {
            format!(in alloc; ": {}, under {}", path_at(boot, at), path_at(boot, above))
        }
        Culprit::LongPath(at) => too_large(alloc, boot, at, "its path has more than 4095 bytes"),
        Culprit::LongName(at) => {
            too_large(
                alloc,
                boot,
                at,
                "a part of its path has more than 255 bytes",
            )
        }
        Culprit::LargeFile(at) => too_large(alloc, boot, at, "it has more than 16777216 bytes"),
        Culprit::LargeFiles(at) => {
            too_large(
                alloc,
                boot,
                at,
                "with it the files have more than 67108864 bytes",
            )
        }
        Culprit::Live => bad_limit(alloc, "live", limits.live, most.live),
        Culprit::LastPid => bad_limit(alloc, "last_pid", limits.last_pid, most.last_pid),
    }
}

/// The fault of a boot, which names the file or the limit that it is found in.
pub fn check_boot(alloc: Global, boot: &Boot) -> Result<(), Fault>
    ensures taken { OnOk result (fault_of boot.now ≡ None) }
    ensures refused { IfErr result (RefusesBoot boot.now) }
{
    match boot_fault(alloc, boot) {
        Some(fault) => Err(told(alloc, boot, fault)),
        None => Ok(()),
    }
}

/// A fault, and what it is found in.
fn told(alloc: Global, boot: &Boot, fault: BootFault) -> Fault
    ensures { IsAbout (codes "boot fault ") result }
{
    let culprit = match find_culprit(boot, fault) {
        Some(culprit) => name_culprit(alloc, boot, culprit),
        None => Ok(String::new(alloc)),
    };
    match culprit {
        Ok(culprit) => refuse(alloc, fault, culprit.as_str()),
        Err(_) => Fault::Memory,
    }
}

fn refuse(alloc: Global, fault: BootFault, culprit: &str) -> Fault
    ensures kind { is_usage_or_memory result ≡ true }
    ensures begins { IsAbout (codes "boot fault ") result }
{
    match fault {
        BootFault::Memory => Fault::Memory,
        fault => Fault::about(
            alloc,
            "boot fault ",
            format!(in alloc; "{}: {fault}{culprit}", fault.number()),
        ),
    }
}

/// Why a boot is refused.
pub fn refuse_boot(alloc: Global, fault: BootFault) -> Fault
    ensures { is_usage_or_memory result ≡ true }
{
    refuse(alloc, fault, "")
}
