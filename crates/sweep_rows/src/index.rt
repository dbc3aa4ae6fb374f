//! Lists of files, in which what stands at a path is looked up in a map.

ghost use Rattle.std.specs.Prelude.{◌≡◌, ℕ, List, Some, cond, IfOk, OnOk};
ghost use Rattle.std.specs.Option.{option_copied};
ghost use Rattle.std.specs.Str.{bytes_eq};
ghost use Rattle.sweep_rows.specs.Files.{content_of, left_at, given_at};
ghost use Rattle.sweep_rows.specs.Index.{content_at};

use lx_abi::{GuestFile, Node, OutcomeFile};
use std::alloc::{AllocError, Global};
use std::collections::BTreeMap;
use std::marker::Model;

/// The files that a run left.
#[derive(Drop)]
pub struct LeftFiles<'a> {
    files: &'a [OutcomeFile],
    contents: BTreeMap<&'a [u8], &'a [u8]>,
}

impl<'a> Model for LeftFiles<'a> {
    ghost use Rattle.std.specs.Prelude.{◌≡◌, ℕ, List};
    ghost use Rattle.lx_abi.specs.declared.outcome.OutcomeFile.{OutcomeFile};
    ghost use Rattle.sweep_rows.specs.Files.{left_at};
    ghost use Rattle.sweep_rows.specs.Index.{content_at};

    ghost Value = { List OutcomeFile };

    ghost view = { λ l. l.files.now };

    ghost invariant = { λ l. (path : List ℕ) → content_at l.contents path ≡ left_at l.files.now path };
}

/// The files of a boot.
#[derive(Drop)]
pub struct GivenFiles<'a> {
    files: &'a [GuestFile],
    contents: BTreeMap<&'a [u8], &'a [u8]>,
}

impl<'a> Model for GivenFiles<'a> {
    ghost use Rattle.std.specs.Prelude.{◌≡◌, ℕ, List};
    ghost use Rattle.lx_abi.specs.declared.boot.GuestFile.{GuestFile};
    ghost use Rattle.sweep_rows.specs.Files.{given_at};
    ghost use Rattle.sweep_rows.specs.Index.{content_at};

    ghost Value = { List GuestFile };

    ghost view = { λ g. g.files.now };

    ghost invariant = { λ g. (path : List ℕ) → content_at g.contents path ≡ given_at g.files.now path };
}

pub(crate) fn content_of(node: &Node) -> &[u8]
    ensures { result.now ≡ content_of node.now }
{
    match node {
        Node::File(bytes) => bytes.as_slice(),
        Node::Directory => &[],
    }
}

/// Puts a content at a path, in place of any other.
fn put<'a>(
    contents: &mut BTreeMap<&'a [u8], &'a [u8]>,
    path: &'a [u8],
    content: &'a [u8],
) -> Result<(), AllocError>
    ensures { OnOk result ((p : List ℕ) → content_at contents.new p
        ≡ cond (bytes_eq path.now p) (Some content.now) (content_at contents.old p)) }
{
    contents.insert(path, content)?;
    Ok(())
}

/// What stands at each path. Of two files at one path the first counts, so it is put there last.
fn contents_left<'a>(
    alloc: Global,
    files: &'a [OutcomeFile],
) -> Result<BTreeMap<&'a [u8], &'a [u8]>, AllocError>
    ensures { IfOk result (λ contents. (path : List ℕ) → content_at contents path ≡ left_at files.now path) }
{
    let mut contents = BTreeMap::new(alloc);
    let mut left = files;
    while let Some((file, rest)) = left.split_last() {
        put(&mut contents, file.path.as_slice(), content_of(&file.node))?;
        left = rest;
    }
    Ok(contents)
}

fn contents_given<'a>(
    alloc: Global,
    files: &'a [GuestFile],
) -> Result<BTreeMap<&'a [u8], &'a [u8]>, AllocError>
    ensures { IfOk result (λ contents. (path : List ℕ) → content_at contents path ≡ given_at files.now path) }
{
    let mut contents = BTreeMap::new(alloc);
    let mut left = files;
    while let Some((file, rest)) = left.split_last() {
        put(&mut contents, file.path.as_slice(), file.content.as_slice())?;
        left = rest;
    }
    Ok(contents)
}

impl<'a> LeftFiles<'a> {
    pub fn new(alloc: Global, files: &'a [OutcomeFile]) -> Result<Self, AllocError>
        ensures { IfOk result (λ left. left ≡ files.now) }
    {
        let contents = contents_left(alloc, files)?;
        Ok(LeftFiles { files, contents })
    }

    pub fn list(&self) -> &'a [OutcomeFile]
        ensures { result.now ≡ self.now }
    {
        self.files
    }

    pub fn at(&self, path: &'a [u8]) -> Option<&'a [u8]>
        ensures { option_copied result ≡ left_at self.now path.now }
    {
        self.contents.get(&path).copied()
    }
}

impl<'a> GivenFiles<'a> {
    pub fn new(alloc: Global, files: &'a [GuestFile]) -> Result<Self, AllocError>
        ensures { IfOk result (λ given. given ≡ files.now) }
    {
        let contents = contents_given(alloc, files)?;
        Ok(GivenFiles { files, contents })
    }

    pub fn list(&self) -> &'a [GuestFile]
        ensures { result.now ≡ self.now }
    {
        self.files
    }

    pub fn at(&self, path: &'a [u8]) -> Option<&'a [u8]>
        ensures { option_copied result ≡ given_at self.now path.now }
    {
        self.contents.get(&path).copied()
    }
}
