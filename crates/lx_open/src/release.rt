//! What goes once nothing names it.

ghost use Rattle.std.specs.Prelude.{◌≡◌, ◌<◌, IsTrue, OnOk, OnErr};
ghost use Rattle.lx_abi.specs.Limits.{most_fds};
ghost use Rattle.lx_open.specs.Opens.{slot as slot_of};
ghost use Rattle.lx_open.specs.Releases.{node_released, pipe_released, object_released, description_released};
ghost use Rattle.lx_open.specs.Releases.{closed, unlinked, replaced, IsNamedBeside};
ghost use Rattle.lx_open.specs.Releases.{is_meant, closed_if_meant, closed_each, all_closed};
ghost use Rattle.lx_open.specs.Releases.{AreEndsKept};
ghost use Rattle.lx_open.specs.Releases.{closed_on_exec};
ghost use Rattle.std.specs.Prelude.{◌&&◌, not, true, false};
ghost use Rattle.std.specs.List.{range_with_len};

use crate::description::{Object, Slot};
use crate::fd_table::{FdTable, pair};
use lx_abi::limits::MOST_FDS;
use lx_files::Tree;
use std::alloc::AllocError;

/// A node goes that neither a path nor a description names.
pub fn release_node(tree: &mut Tree, fds: &FdTable, node: u32)
    ensures { tree.new ≡ node_released tree.old fds.now node }
{
    if tree.has_path(node) || fds.descriptions.has_node(node) {
        return;
    }
    tree.drop_node(node);
}

fn release_pipe(fds: &mut FdTable, pipe: u32)
    ensures { fds.new ≡ pipe_released fds.old pipe }
{
    if fds.descriptions.has_readers(pipe) || fds.descriptions.has_writers(pipe) {
        return;
    }
    fds.pipes.remove(pipe);
}

fn release_object(tree: &mut Tree, fds: &mut FdTable, object: Object)
    ensures { record { tree = tree.new; fds = fds.new } ≡ object_released tree.old fds.old object }
{
    match object {
        Object::Input | Object::Console => {}
        Object::ReadEnd(pipe) | Object::WriteEnd(pipe) => release_pipe(fds, pipe),
        Object::Opened(node) => release_node(tree, fds, node),
    }
}

/// A description goes that no descriptor names: whether it stays.
#[tactic(auto, unfolding(crate::specs::Releases::description_released))]
fn release_description(tree: &mut Tree, fds: &mut FdTable, number: u32) -> bool
    ensures held { record { tree = tree.new; fds = fds.new } ≡ description_released tree.old fds.old number }
    ensures kept { IsTrue result → AreEndsKept fds.old fds.new }
{
    if fds.slots.has(number) {
        return true;
    }
    let Some(description) = fds.descriptions.get(number) else {
        return true;
    };
    fds.descriptions.remove(number);
    release_object(tree, fds, description.object);
    false
}

/// A descriptor names nothing from now on: whether its description stays.
#[tactic(auto, unfolding(crate::specs::Releases::closed))]
fn close_one(tree: &mut Tree, fds: &mut FdTable, pid: u32, fd: u32) -> bool
    ensures held { record { tree = tree.new; fds = fds.new } ≡ closed tree.old fds.old pid fd }
    ensures kept { IsTrue result → AreEndsKept fds.old fds.new }
{
    if fd >= MOST_FDS {
        return true;
    }
    match fds.slots.remove(pair(pid, fd)) {
        None => true,
        Some(slot) => release_description(tree, fds, slot.description),
    }
}

/// A descriptor names nothing from now on.
pub fn close(tree: &mut Tree, fds: &mut FdTable, pid: u32, fd: u32)
    ensures { record { tree = tree.new; fds = fds.new } ≡ closed tree.old fds.old pid fd }
{
    close_one(tree, fds, pid, fd);
}

/// A descriptor names what a slot says, and what it named before is closed (dup2). Another descriptor names the slot's
/// description, which so stays.
pub fn replace(
    tree: &mut Tree,
    fds: &mut FdTable,
    pid: u32,
    fd: u32,
    slot: Slot,
) -> Result<(), AllocError>
    requires small { fd < most_fds }
    requires named { IsNamedBeside fds.old pid fd slot.description }
    ensures ok { OnOk result (record { tree = tree.new; fds = fds.new } ≡ replaced tree.old fds.old pid fd slot) }
    ensures same_tree { OnErr result (tree.new ≡ tree.old) }
    ensures same_fds { OnErr result (fds.new ≡ fds.old) }
{
    let was = fds.slot(pid, fd);
    fds.put(pid, fd, slot)?;
    if let Some(old) = was {
        release_description(tree, fds, old.description);
    }
    Ok(())
}

/// A path names nothing from now on.
#[tactic(auto, unfolding(crate::specs::Releases::unlinked))]
pub fn unlink(tree: &mut Tree, fds: &FdTable, path: &[u8])
    ensures { tree.new ≡ unlinked tree.old fds.now path.now }
{
    match tree.unlink(path) {
        None => {}
        Some(node) => release_node(tree, fds, node),
    }
}

fn closes_on_exec(slot: Option<Slot>) -> bool
    ensures { result ≡ is_meant true slot }
{
    match slot {
        None => false,
        Some(slot) => slot.closes_on_exec,
    }
}

/// The descriptor is not meant, though it may be open.
fn stays_open(fds: &FdTable, on_exec: bool, pid: u32, fd: u32) -> bool
    ensures { result ≡ (on_exec && not (is_meant true (slot_of fds.now pid fd))) }
{
    on_exec && !closes_on_exec(fds.slot(pid, fd))
}

fn close_if_meant(tree: &mut Tree, fds: &mut FdTable, on_exec: bool, pid: u32, fd: u32) -> bool
    ensures held { record { tree = tree.new; fds = fds.new }
        ≡ closed_if_meant on_exec (record { tree = tree.old; fds = fds.old }) pid fd }
    ensures kept { IsTrue result → AreEndsKept fds.old fds.new }
{
    if stays_open(fds, on_exec, pid, fd) {
        return true;
    }
    close_one(tree, fds, pid, fd)
}

fn close_each(tree: &mut Tree, fds: &mut FdTable, on_exec: bool, pid: u32) -> bool
    ensures held { record { tree = tree.new; fds = fds.new }
        ≡ closed_each on_exec (record { tree = tree.old; fds = fds.old }) pid (range_with_len 0 most_fds) }
    ensures kept { IsTrue result → AreEndsKept fds.old fds.new }
{
    let mut at = 0u32;
    let mut kept = true;
    while let Some(fd) = fds.next_open(pid, at) {
        let stays = close_if_meant(tree, fds, on_exec, pid, fd);
        kept = stays & kept;
        at = fd + 1;
    }
    kept
}

/// All descriptors of a process name nothing from now on, as at its end (POSIX _Exit): whether each description stays,
/// since another process has it too.
#[tactic(auto, unfolding(crate::specs::Releases::all_closed))]
pub fn close_all(tree: &mut Tree, fds: &mut FdTable, pid: u32) -> bool
    ensures held { record { tree = tree.new; fds = fds.new } ≡ all_closed tree.old fds.old pid }
    ensures kept { IsTrue result → AreEndsKept fds.old fds.new }
{
    close_each(tree, fds, false, pid)
}

/// A process's descriptors with FD_CLOEXEC name nothing from now on (POSIX exec).
#[tactic(auto, unfolding(crate::specs::Releases::closed_on_exec))]
pub fn close_on_exec(tree: &mut Tree, fds: &mut FdTable, pid: u32)
    ensures { record { tree = tree.new; fds = fds.new } ≡ closed_on_exec tree.old fds.old pid }
{
    close_each(tree, fds, true, pid);
}
