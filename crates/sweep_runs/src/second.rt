//! A second program, on the files that a run left.

ghost use Rattle.std.specs.Prelude.{◌≡◌, ◌++◌, IfOk, OnOk};
ghost use Rattle.sweep_runs.specs.Seconds.{boot_on as boot_on_files, files_again, given_again};

use containers::Seq;
use lx_abi::{Boot, GuestFile, Node, OutcomeFile};
use lx_copies::Copied;
use std::alloc::{AllocError, Global};

/// Adds what stands at a path, if it is a file.
fn add_again(
    alloc: Global,
    files: &mut Seq<GuestFile>,
    left: &OutcomeFile,
) -> Result<(), AllocError>
    ensures { OnOk result (files.new ≡ files.old ++ given_again left.now.path left.now.node) }
{
    match &left.node {
        Node::Directory => Ok(()),
        Node::File(content) => {
            let path = left.path.copy(alloc)?;
            let content = content.copy(alloc)?;
            files.push(GuestFile { path, content })
        }
    }
}

/// The files among what a run left.
#[tactic(auto, unfolding(crate::specs::Seconds::files_again))]
fn files_again(alloc: Global, left: &[OutcomeFile]) -> Result<Seq<GuestFile>, AllocError>
    ensures { IfOk result (λ files. files ≡ files_again left.now) }
{
    let mut files = Seq::new(alloc);
    let mut rest = left;
    while let Some((file, others)) = rest.split_first() {
        add_again(alloc, &mut files, file)?;
        rest = others;
    }
    Ok(files)
}

/// A boot with the files that a run left in the place of its own. A directory with no file in it is none of a boot's.
pub fn boot_on(alloc: Global, boot: Boot, left: &[OutcomeFile]) -> Result<Boot, AllocError>
    ensures { IfOk result (λ b. b ≡ boot_on_files boot left.now) }
{
    let files = files_again(alloc, left)?;
    Ok(Boot { files, ..boot })
}
