//! What calls on files read first.

ghost use Rattle.std.specs.Prelude.{◌≡◌, IfOk};
ghost use Rattle.lx_abi.specs.Limits.{path_limit};
ghost use Rattle.lx_files.specs.Places.{numbered};
ghost use Rattle.lx_proc.specs.Texts.{text_at as text_in};
ghost use Rattle.lx_fcalls.specs.Arguments.{read_text, may_begin as may_begin_of};
ghost use Rattle.lx_fcalls.specs.Arguments.{place_from as place_from_of, place_at as place_at_of};

use crate::flags::AT_FDCWD;
use containers::Bytes;
use lx_abi::Errno;
use lx_abi::limits::PATH_LIMIT;
use lx_files::Place;
use lx_files::places::locate;
use lx_proc::{Shared, Text, UserState, directory, text_at};
use std::alloc::{AllocError, Global};

/// The text of a path argument.
fn read_path(
    alloc: Global,
    user: &mut UserState,
    at: u64,
) -> Result<Result<Bytes, Errno>, AllocError>
    ensures text { IfOk result (λ r. numbered r ≡ read_text (text_in user.old.memory path_limit at)) }
    ensures kept { user.new ≡ user.old }
{
    match text_at(alloc, &mut user.memory, at, PATH_LIMIT)? {
        Text::Whole(text) => Ok(Ok(text)),
        Text::TooLong => Ok(Err(Errno::ENAMETOOLONG)),
        Text::Unreadable => Ok(Err(Errno::EFAULT)),
    }
}

fn may_begin(dirfd: u32, text: &[u8]) -> bool
    ensures { result ≡ may_begin_of dirfd text.now }
{
    text.starts_with(b"/".as_slice()) || dirfd == AT_FDCWD
}

fn place_from(
    alloc: Global,
    shared: &Shared,
    pid: u32,
    dirfd: u32,
    text: &[u8],
) -> Result<Result<Place, Errno>, AllocError>
    ensures { IfOk result (λ r. numbered r ≡ place_from_of shared.now pid dirfd text.now) }
{
    if !may_begin(dirfd, text) {
        return Ok(Err(Errno::EBADF));
    }
    locate(alloc, &shared.tree, directory(shared, pid), text)
}

/// The place of a path argument. A relative path wants AT_FDCWD.
pub fn place_at(
    alloc: Global,
    shared: &Shared,
    pid: u32,
    user: &mut UserState,
    dirfd: u32,
    at: u64,
) -> Result<Result<Place, Errno>, AllocError>
    ensures place { IfOk result (λ r. numbered r ≡ place_at_of shared.now pid user.old dirfd at) }
    ensures kept { user.new ≡ user.old }
{
    match read_path(alloc, user, at)? {
        Ok(text) => place_from(alloc, shared, pid, dirfd, text.as_slice()),
        Err(error) => Ok(Err(error)),
    }
}
