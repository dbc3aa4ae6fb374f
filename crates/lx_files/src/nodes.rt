//! What each node is.

ghost use Rattle.std.specs.Prelude.{◌≡◌, OnOk, IfOk, length};
ghost use Rattle.std.specs.Option.{option_copied};
ghost use Rattle.std.specs.FinMap as maps;
ghost use Rattle.containers.specs.Vacant.{vacant};
ghost use Rattle.lx_abi.specs.Limits.{largest_file};
ghost use Rattle.lx_files.specs.Tallies.{total, weight};
ghost use Rattle.lx_files.specs.Kinds.{size_of, changed_file, changed_node};
ghost use Rattle.lx_files.specs.Contents.{padded_to, overwritten as overwritten_of};
ghost use Rattle.lx_files.specs.Contents.{length_after as length_after_of};
ghost use Rattle.std.specs.Prelude.{◌≤◌, ◌+◌, OnErr, []};

use containers::Content;
use lx_abi::Node;
use shelves::Numbered;
use std::alloc::{AllocError, Global};
use std::marker::Model;

/// Files and directories by number, with how many bytes all files have.
#[derive(Drop)]
pub struct Nodes {
    alloc: Global,
    map: Numbered<Node>,
    contents: u64,
}

impl Model for Nodes {
    ghost use Rattle.std.specs.Coded.{codes};
    ghost use Rattle.std.specs.FinMap as maps;
    ghost use Rattle.std.specs.Prelude.{◌≡◌};
    ghost use Rattle.lx_files.specs.Kinds.{NodeMap, size_of};
    ghost use Rattle.lx_files.specs.Tallies.{total};

    ghost Value = { NodeMap };

    ghost coded = { Prim.hlevel (codes, maps.code) };

    ghost view = { λ n. n.map };

    ghost invariant = { λ n. n.contents ≡ total size_of n.map };
}

fn size(node: &Node) -> u64
    ensures { result ≡ size_of node.now }
{
    match node {
        Node::File(bytes) => bytes.len() as u64,
        Node::Directory => 0,
    }
}

/// How many bytes stand at a number.
fn size_at(map: &Numbered<Node>, node: u32) -> u64
    ensures { result ≡ weight size_of (maps.get map.now node) }
{
    match map.get(node) {
        None => 0,
        Some(value) => size(value),
    }
}

impl Nodes {
    pub fn new(alloc: Global) -> Self
        ensures { result ≡ maps.empty }
    {
        Nodes {
            alloc,
            map: Numbered::new(alloc),
            contents: 0,
        }
    }

    pub fn get(&self, node: u32) -> Option<&Node>
        ensures { option_copied result ≡ maps.get self.now node }
    {
        self.map.get(node)
    }

    pub fn len(&self) -> usize
        ensures { result ≡ maps.len self.now }
    {
        self.map.len()
    }

    /// The least number at which there is no node.
    pub fn vacant(&self) -> Result<u32, AllocError>
        ensures { IfOk result (λ n. n ≡ vacant self.now) }
    {
        self.map.vacant()
    }

    /// How many bytes all files have.
    pub fn contents(&self) -> u64
        ensures { result ≡ total size_of self.now }
    {
        self.contents
    }

    pub fn remove(&mut self, node: u32)
        ensures { self.new ≡ maps.remove self.old node }
    {
        match self.map.remove(node) {
            None => {}
            Some(old) => {
                self.contents = self.contents.saturating_sub(size(&old));
            }
        }
    }

    pub fn insert(&mut self, node: u32, value: Node) -> Result<(), AllocError>
        ensures ok { OnOk result (self.new ≡ maps.insert self.old node value) }
        ensures err { OnErr result (self.new ≡ self.old) }
    {
        let before = size_at(&self.map, node);
        // More than 64 bits count are more than any memory holds.
        let Some(contents) = self
            .contents
            .saturating_sub(before)
            .checked_add(size(&value))
        else {
            return Err(AllocError);
        };
        self.map.insert(node, value)?;
        self.contents = contents;
        Ok(())
    }

    /// A file has no bytes from now on. A node that is no file is left.
    pub fn clear(&mut self, node: u32) -> Result<(), AllocError>
        ensures ok { OnOk result (self.new ≡ changed_file self.old node (λ old. []) (maps.get self.old node)) }
        ensures err { OnErr result (self.new ≡ self.old) }
    {
        let Some(value) = self.map.get_mut(node) else {
            return Ok(());
        };
        let before = size(value);
        clear_node(self.alloc, value)?;
        self.contents = self.contents.saturating_sub(before);
        Ok(())
    }

    /// Writes bytes to a file from an offset on. A node that is no file is left.
    pub fn overwrite(&mut self, node: u32, at: usize, bytes: &[u8]) -> Result<(), AllocError>
        requires { at + length bytes.now ≤ largest_file }
        ensures ok { OnOk result (self.new
            ≡ changed_file self.old node (λ old. overwritten_of old at bytes.now) (maps.get self.old node)) }
        ensures err { OnErr result (self.new ≡ self.old) }
    {
        let Some(value) = self.map.get_mut(node) else {
            return Ok(());
        };
        let before = size(value);
        let after = size_after(value, at, bytes);
        // More than 64 bits count are more than any memory holds.
        let Some(contents) = self.contents.saturating_sub(before).checked_add(after) else {
            return Err(AllocError);
        };
        overwrite_node(self.alloc, value, at, bytes)?;
        self.contents = contents;
        Ok(())
    }

    /// A file has so many bytes from now on, zeros among them where some were missing. A node that is no file is left.
    pub fn resize(&mut self, node: u32, len: usize) -> Result<(), AllocError>
        ensures ok { OnOk result (self.new ≡ changed_file self.old node (padded_to len) (maps.get self.old node)) }
        ensures err { OnErr result (self.new ≡ self.old) }
    {
        let Some(value) = self.map.get_mut(node) else {
            return Ok(());
        };
        let before = size(value);
        let after = size_resized(value, len);
        // More than 64 bits count are more than any memory holds.
        let Some(contents) = self.contents.saturating_sub(before).checked_add(after) else {
            return Err(AllocError);
        };
        resize_node(self.alloc, value, len)?;
        self.contents = contents;
        Ok(())
    }
}

fn resize_node(alloc: Global, node: &mut Node, len: usize) -> Result<(), AllocError>
    ensures ok { OnOk result (node.new ≡ changed_node (padded_to len) node.old) }
    ensures err { OnErr result (node.new ≡ node.old) }
{
    match node {
        Node::File(content) => content.resize(alloc, len),
        Node::Directory => Ok(()),
    }
}

/// How many bytes a node has once it has so many.
fn size_resized(node: &Node, len: usize) -> u64
    ensures { result ≡ size_of (changed_node (padded_to len) node.now) }
{
    match node {
        Node::File(_) => len as u64,
        Node::Directory => 0,
    }
}

/// Writes bytes from an offset on, all of them or none.
#[tactic(auto, unfolding(crate::specs::Contents::overwritten))]
fn overwrite_content(
    alloc: Global,
    content: &mut Content,
    at: usize,
    bytes: &[u8],
) -> Result<(), AllocError>
    requires { at + length bytes.now ≤ largest_file }
    ensures ok { OnOk result (content.new ≡ overwritten_of content.old at bytes.now) }
    ensures err { OnErr result (content.new ≡ content.old) }
{
    if bytes.len() == 0 {
        return Ok(());
    }
    content.write(alloc, at, bytes)
}

fn overwrite_node(alloc: Global, node: &mut Node, at: usize, bytes: &[u8]) -> Result<(), AllocError>
    requires { at + length bytes.now ≤ largest_file }
    ensures ok { OnOk result (node.new ≡ changed_node (λ old. overwritten_of old at bytes.now) node.old) }
    ensures err { OnErr result (node.new ≡ node.old) }
{
    match node {
        Node::File(content) => overwrite_content(alloc, content, at, bytes),
        Node::Directory => Ok(()),
    }
}

/// How many bytes a node has once these are written.
fn size_after(node: &Node, at: usize, bytes: &[u8]) -> u64
    requires { at + length bytes.now ≤ largest_file }
    ensures { result ≡ size_of (changed_node (λ old. overwritten_of old at bytes.now) node.now) }
{
    match node {
        Node::File(content) => length_after(content.len(), at, bytes.len()) as u64,
        Node::Directory => 0,
    }
}

/// How many bytes a file has after a write.
pub fn length_after(len: usize, at: usize, written: usize) -> usize
    requires { at + written ≤ largest_file }
    ensures { result ≡ length_after_of len at written }
{
    if written == 0 || len > at + written {
        len
    } else {
        at + written
    }
}

fn clear_node(alloc: Global, node: &mut Node) -> Result<(), AllocError>
    ensures ok { OnOk result (node.new ≡ changed_node (λ old. []) node.old) }
    ensures err { OnErr result (node.new ≡ node.old) }
{
    match node {
        Node::File(content) => content.clear(alloc),
        Node::Directory => Ok(()),
    }
}

impl Clone for Nodes {
    ghost is_clone = { λ a b. b ≡ a };

    fn clone(&self) -> Result<Self, AllocError> {
        Ok(Nodes {
            alloc: self.alloc,
            map: self.map.clone()?,
            contents: self.contents,
        })
    }
}
