//! What a boot's fault is found in.

ghost use Rattle.std.specs.Prelude.{◌≡◌, ◌<◌, length};
ghost use Rattle.std.specs.List.{position};
ghost use Rattle.lx_abi.specs.Limits.{most_contents};
ghost use Rattle.lx_boot.specs.Culprits as spec;
ghost use Rattle.lx_boot.specs.Paths.{is_under as is_under_path};

use crate::boots::{BootFault, is_among, is_bad_path};
use crate::limits::names_fit;
use crate::neighbours::is_under;
use lx_abi::limits::{LARGEST_FILE, LONGEST_PATH, MOST_CONTENTS};
use lx_abi::{Boot, GuestFile, Limits};

/// What a fault is found in. A file is given by its place among the boot's.
#[derive(Clone, Copy, Debug, PartialEq, Eq)]
pub enum Culprit {
    /// The path of this file is not absolute, is the root, or has an empty, `.` or `..` part.
    Path(usize),
    /// The first of these files lies under the second.
    Under(usize, usize),
    /// This file has the path of one before it.
    Repeated(usize),
    /// The path of this file is too long.
    LongPath(usize),
    /// A name in the path of this file is too long.
    LongName(usize),
    /// This file is too large.
    LargeFile(usize),
    /// With this file, all files up to it are too large together.
    LargeFiles(usize),
    /// The limit of processes.
    Live,
    /// The limit of pids.
    LastPid,
}

/// The first file that a path lies under.
fn file_above(path: &[u8], files: &[GuestFile]) -> Option<usize>
    ensures { result ≡ position (λ f. is_under_path path.now f.path) files.now }
{
    files
        .iter()
        .position(|other| is_under(path, other.path.as_slice()))
}

#[tactic(auto, unfolding(crate::specs::Culprits::misplaced_at))]
fn misplaced_at(files: &[GuestFile], at: usize, path: &[u8]) -> Option<Culprit>
    ensures { result ≡ spec.misplaced_at files.now at path.now }
{
    if is_bad_path(path) {
        return Some(Culprit::Path(at));
    }
    match file_above(path, files) {
        Some(above) => Some(Culprit::Under(at, above)),
        None => None,
    }
}

/// The first file whose path is bad, or that lies under another.
fn misplaced(files: &[GuestFile]) -> Option<Culprit>
    ensures { result ≡ spec.misplaced files.now 0 files.now }
{
    for (at, file) in files.iter().enumerate() {
        if let Some(found) = misplaced_at(files, at, file.path.as_slice()) {
            return Some(found);
        }
    }
    None
}

/// The first file that has the path of one before it.
fn repeated(files: &[GuestFile]) -> Option<Culprit>
    ensures { result ≡ spec.repeated files.now 0 files.now }
{
    for (at, file) in files.iter().enumerate() {
        if is_among(file.path.as_slice(), &files[..at]) {
            return Some(Culprit::Repeated(at));
        }
    }
    None
}

#[tactic(auto, unfolding(crate::specs::Culprits::oversized_at))]
fn oversized_at(at: usize, file: &GuestFile) -> Option<Culprit>
    ensures { result ≡ spec.oversized_at at file.now }
{
    let path = file.path.as_slice();
    if path.len() > LONGEST_PATH {
        return Some(Culprit::LongPath(at));
    }
    if !names_fit(path) {
        return Some(Culprit::LongName(at));
    }
    if file.content.len() as u64 > LARGEST_FILE {
        return Some(Culprit::LargeFile(at));
    }
    None
}

/// The first file that is over a limit by itself, or with those before it.
fn oversized(files: &[GuestFile]) -> Option<Culprit>
    ensures { result ≡ spec.oversized most_contents 0 files.now }
{
    let mut room = MOST_CONTENTS;
    for (at, file) in files.iter().enumerate() {
        if let Some(found) = oversized_at(at, file) {
            return Some(found);
        }
        match room.checked_sub(file.content.len() as u64) {
            None => return Some(Culprit::LargeFiles(at)),
            Some(less) => room = less,
        }
    }
    None
}

fn limit_culprit(limits: Limits) -> Culprit
    ensures { result ≡ spec.limit_culprit limits }
{
    if (1..=Limits::WIDEST.live).contains(&limits.live) {
        Culprit::LastPid
    } else {
        Culprit::Live
    }
}

/// What this fault of a boot is found in, if it is in one file or limit: the first that there is.
pub fn find_culprit(boot: &Boot, fault: BootFault) -> Option<Culprit>
    ensures { result ≡ spec.culprit_of boot.now fault }
{
    let files = boot.files.as_slice();
    match fault {
        BootFault::BadPath => misplaced(files),
        BootFault::Duplicate => repeated(files),
        BootFault::TooLarge => oversized(files),
        BootFault::BadLimit => Some(limit_culprit(boot.limits)),
        BootFault::NoProgram | BootFault::Memory => None,
    }
}
