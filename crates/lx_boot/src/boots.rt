//! What a boot is refused for.

ghost use Rattle.std.specs.Prelude.{◌≡◌, ◌==◌, IfSome};
ghost use Rattle.std.specs.List.{list_any, slice_split};
ghost use Rattle.lx_boot.specs.Boots.{fault_number, fault_of, is_bad_part as is_bad_part_of, is_bad_path as is_bad_path_of, has_bad_path as has_bad_path_of, has_duplicate as has_duplicate_of, has_nul as has_nul_of, has_no_program as has_no_program_of, fits as fits_of};
ghost use Rattle.lx_boot.specs.Paths.{is_under as is_under_path};
ghost use Rattle.lx_boot.specs.Neighbours.{has_under as has_under_of, IsTold};
ghost use Rattle.std.specs.Str.{bytes_eq};

use crate::limits::files_fit;
use crate::neighbours::{Told, is_under, tell};
use containers::Bytes;
use lx_abi::{Boot, GuestFile};
use lx_exec::start_fits;
use std::alloc::{AllocError, Global};
use thiserror::Error;

/// Why a boot is refused. The checks have an order, and the first that fails names the fault.
#[derive(Clone, Copy, Debug, PartialEq, Eq, Error)]
pub enum BootFault {
    /// A path is not absolute, is the root, has an empty, `.` or `..` part, or lies under another file.
    #[error("a file's path is not plain and absolute, or lies under another file")]
    BadPath = 1,
    /// Two files have one path.
    #[error("two files have the same path")]
    Duplicate = 2,
    /// The words name no program, or one of them or of the environment has a NUL byte.
    #[error("no program is named, or a word has a NUL byte")]
    NoProgram = 3,
    /// A path, a name in it, a file, all files together, or the words and the environment are over a limit.
    #[error("the files, or the words and the environment, are too large")]
    TooLarge = 4,
    /// Memory ran out.
    #[error("memory ran out")]
    Memory = 5,
    /// A limit of processes or of pids is out of its range. This is found before all others.
    #[error("a limit is out of its range")]
    BadLimit = 6,
}

impl BootFault {
    /// The number by which programs show the fault.
    pub fn number(self) -> u8
        ensures { result ≡ fault_number self }
    {
        self as u8
    }
}

impl From<AllocError> for BootFault {
    ghost use Rattle.lx_boot.specs.declared.boots.BootFault.TheVariants.{Memory};

    ghost from_gives = { λ _ e. e ≡ Memory };

    fn from(_: AllocError) -> BootFault {
        BootFault::Memory
    }
}

#[tactic(auto, unfolding(crate::specs::Boots::is_bad_part))]
fn is_bad_part(part: &[u8]) -> bool
    ensures { result ≡ is_bad_part_of part.now }
{
    part == b"".as_slice() || part == b".".as_slice() || part == b"..".as_slice()
}

fn has_bad_part(parts: &[u8]) -> bool
    ensures { result ≡ list_any is_bad_part_of (slice_split (λ c. c == 47) parts.now) }
{
    parts.split(|b| *b == b'/').any(|part| is_bad_part(part))
}

#[tactic(auto, unfolding(crate::specs::Boots::is_bad_path))]
pub(crate) fn is_bad_path(path: &[u8]) -> bool
    ensures { result ≡ is_bad_path_of path.now }
{
    match path.split_first() {
        Some((b'/', parts)) => has_bad_part(parts),
        _ => true,
    }
}

/// One of the paths is not absolute, is the root, or has a bad part.
fn has_plain_fault(files: &[GuestFile]) -> bool
    ensures { result ≡ list_any (λ f. is_bad_path_of f.path) files.now }
{
    files.iter().any(|file| is_bad_path(file.path.as_slice()))
}

fn is_under_any(path: &[u8], files: &[GuestFile]) -> bool
    ensures { result ≡ list_any (λ g. is_under_path path.now g.path) files.now }
{
    files
        .iter()
        .any(|other| is_under(path, other.path.as_slice()))
}

/// A file lies under another. Where nothing is told, each is compared with each.
fn has_under(files: &[GuestFile], told: Option<bool>) -> bool
    requires { IfSome told (λ b. b ≡ has_under_of files.now) }
    ensures { result ≡ has_under_of files.now }
{
    match told {
        Some(answer) => answer,
        None => files
            .iter()
            .any(|file| is_under_any(file.path.as_slice(), files)),
    }
}

fn has_bad_path(files: &[GuestFile], told: &Told) -> bool
    requires { IsTold files.now told.now }
    ensures { result ≡ has_bad_path_of files.now }
{
    has_plain_fault(files) || has_under(files, told.under)
}

pub(crate) fn is_among(path: &[u8], files: &[GuestFile]) -> bool
    ensures { result ≡ list_any (λ g. bytes_eq path.now g.path) files.now }
{
    files.iter().any(|other| path == other.path.as_slice())
}

/// Two files have one path, by comparing each with each behind it.
fn repeats(files: &[GuestFile]) -> bool
    ensures { result ≡ has_duplicate_of files.now }
{
    let mut left = files;
    while let Some((file, rest)) = left.split_first() {
        if is_among(file.path.as_slice(), rest) {
            return true;
        }
        left = rest;
    }
    false
}

fn has_duplicate(files: &[GuestFile], told: &Told) -> bool
    requires { IsTold files.now told.now }
    ensures { result ≡ has_duplicate_of files.now }
{
    match told.twice {
        Some(answer) => answer,
        None => repeats(files),
    }
}

fn has_nul(words: &[Bytes]) -> bool
    ensures { result ≡ has_nul_of words.now }
{
    words.iter().any(|word| word.as_slice().contains(&0))
}

fn has_no_program(argv: &[Bytes], env: &[Bytes]) -> bool
    ensures { result ≡ has_no_program_of argv.now env.now }
{
    argv.is_empty() || has_nul(argv) || has_nul(env)
}

/// The files are within their limits, and the words and the environment within those of a program's start.
fn fits(boot: &Boot, told: &Told) -> bool
    requires { IsTold boot.now.files told.now }
    ensures { result ≡ fits_of boot.now }
{
    files_fit(boot.files.as_slice(), told.few)
        && start_fits(boot.argv.as_slice(), boot.env.as_slice())
}

/// Why a boot is refused, if it is. The answer is the same whatever the memory; the time goes with the square of the
/// number of files only where there is no memory for their order.
pub fn boot_fault(alloc: Global, boot: &Boot) -> Option<BootFault>
    ensures { result ≡ fault_of boot.now }
{
    let files = boot.files.as_slice();
    let told = tell(alloc, files);
    if !boot.limits.are_in_range() {
        Some(BootFault::BadLimit)
    } else if has_bad_path(files, &told) {
        Some(BootFault::BadPath)
    } else if has_duplicate(files, &told) {
        Some(BootFault::Duplicate)
    } else if has_no_program(boot.argv.as_slice(), boot.env.as_slice()) {
        Some(BootFault::NoProgram)
    } else if fits(boot, &told) {
        None
    } else {
        Some(BootFault::TooLarge)
    }
}
