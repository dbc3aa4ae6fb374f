//! Lists of values.

ghost use Rattle.std.specs.Prelude.{◌≡◌, ◌++◌, List, ℕ, Option, OnOk, length};
ghost use Rattle.host_values.specs.Sizes.{Spends};
ghost use Rattle.host_values.specs.Reading as spec;
ghost use Rattle.host_values.specs.Reading.{Gives, items_at, each_at};
ghost use Rattle.host_values.specs.Spelling.{text, items, guest_file, schedule_word};
ghost use Rattle.std.specs.List.{AllByRecursion, flat_map};
ghost use Rattle.host_values.specs.Spelling as spell;

use crate::cursor::{byte_at, text_of, word_at};
use crate::fault::Bad;
use crate::fields::{put_byte, put_length, put_text, put_word, spend_text};
use containers::{Bytes, Content, Seq};
use lx_abi::{Ended, GuestFile, Node, OutcomeFile, Word};
use std::alloc::{AllocError, Global};

/// What lists on the wire hold.
pub trait Item: Sized {
    ghost use Rattle.std.specs.Prelude.{ℕ, List, Option};

    /// Its bytes.
    ghost spelled: { Self → List ℕ };

    /// Its numbers are of the widths in which they are spelled.
    ghost numbers: { Self → Type 0 };

    /// The value at the front of bytes, and the bytes after it.
    ghost reads: { List ℕ → Option (Self × List ℕ) };

    fn put(&self, out: &mut Vec<u8>) -> Result<(), AllocError>
        ensures bytes { OnOk result (out.new.items ≡ out.old.items ++ spelled self.now) }
        ensures numbers { OnOk result (numbers self.now) };

    /// What is left of a budget of bytes behind it.
    fn spend(&self, budget: usize) -> Option<usize>
        ensures { Spends result budget (length (spelled self.now)) };

    fn take(alloc: Global, bytes: &[u8]) -> Result<(Self, &[u8]), Bad>
        ensures { Gives (λ x. (x.0, x.1.now)) result (reads bytes.now) };
}

/// As many items as are told, one after the other. Nothing is made room for before its bytes are there.
fn each<T: Item + Drop>(alloc: Global, count: u32, bytes: &[u8]) -> Result<(Seq<T>, &[u8]), Bad>
    ensures { Gives (λ x. (x.0, x.1.now)) result (each_at T.reads count bytes.now) }
{
    let mut found = Seq::new(alloc);
    let mut rest = bytes;
    for _ in 0..count {
        let (item, after) = T::take(alloc, rest)?;
        found.push(item)?;
        rest = after;
    }
    Ok((found, rest))
}

#[tactic(auto, unfolding(crate::specs::Reading::items_at))]
pub fn list_of<T: Item + Drop>(alloc: Global, bytes: &[u8]) -> Result<(Seq<T>, &[u8]), Bad>
    ensures { Gives (λ x. (x.0, x.1.now)) result (items_at T.reads bytes.now) }
{
    let (count, rest) = word_at(bytes)?;
    each(alloc, count, rest)
}

#[tactic(auto, unfolding(crate::specs::Spelling::items))]
pub fn put_list<T: Item>(out: &mut Vec<u8>, list: &[T]) -> Result<(), AllocError>
    ensures bytes { OnOk result (out.new.items ≡ out.old.items ++ items T.spelled list.now) }
    ensures numbers { OnOk result (AllByRecursion T.numbers list.now) }
{
    put_length(out, list.len())?;
    for item in list {
        item.put(out)?;
    }
    Ok(())
}

/// What is left of a budget of bytes behind a list.
#[tactic(auto, using(crate::proofs::Sizes::items_size))]
pub fn spend_list<T: Item>(budget: usize, list: &[T]) -> Option<usize>
    ensures { Spends result budget (length (items T.spelled list.now)) }
{
    let mut left = budget.checked_sub(4)?;
    for item in list {
        left = item.spend(left)?;
    }
    Some(left)
}

impl Item for Bytes {
    ghost spelled = { λ b. text b };

    ghost numbers = { λ b. Unit {0} };

    ghost reads = { λ bytes. spec.text_at bytes };

    fn put(&self, out: &mut Vec<u8>) -> Result<(), AllocError> {
        put_text(out, self.as_slice())
    }

    #[tactic(auto, using(crate::proofs::Sizes::sizes))]
    fn spend(&self, budget: usize) -> Option<usize> {
        spend_text(budget, self.as_slice())
    }

    fn take(alloc: Global, bytes: &[u8]) -> Result<(Bytes, &[u8]), Bad> {
        text_of(alloc, bytes)
    }
}

impl Item for GuestFile {
    ghost spelled = { λ f. guest_file f };

    ghost numbers = { λ f. Unit {0} };

    ghost reads = { λ bytes. spec.guest_file_at bytes };

    fn put(&self, out: &mut Vec<u8>) -> Result<(), AllocError> {
        put_text(out, self.path.as_slice())?;
        put_text(out, self.content.as_slice())
    }

    #[tactic(auto, using(crate::proofs::Sizes::sizes))]
    fn spend(&self, budget: usize) -> Option<usize> {
        let budget = spend_text(budget, self.path.as_slice())?;
        spend_text(budget, self.content.as_slice())
    }

    #[tactic(auto, unfolding(crate::specs::Reading::guest_file_at))]
    fn take(alloc: Global, bytes: &[u8]) -> Result<(GuestFile, &[u8]), Bad> {
        let (path, rest) = text_of(alloc, bytes)?;
        let (text, rest) = text_of(alloc, rest)?;
        let content = Content::from_bytes(alloc, text)?;
        Ok((GuestFile { path, content }, rest))
    }
}

fn schedule_word_of(kind: u8, pid: u32) -> Option<Word>
    ensures { result ≡ spec.word_of kind pid }
{
    match kind {
        1 => Some(Word::Turn { pid }),
        2 => Some(Word::TurnAlone { pid }),
        3 if pid == 0 => Some(Word::Serve),
        4 => Some(Word::UntilReturn { pid }),
        _ => None,
    }
}

impl Item for Word {
    ghost spelled = { λ w. schedule_word w };

    ghost numbers = { λ w. spell.FitsWord w };

    ghost reads = { λ bytes. spec.schedule_word_at bytes };

    fn put(&self, out: &mut Vec<u8>) -> Result<(), AllocError> {
        let (kind, pid) = match self {
            Word::Turn { pid } => (1, *pid),
            Word::TurnAlone { pid } => (2, *pid),
            Word::Serve => (3, 0),
            Word::UntilReturn { pid } => (4, *pid),
        };
        put_byte(out, kind)?;
        put_word(out, pid)
    }

    #[tactic(auto, using(crate::proofs::Sizes::sizes))]
    fn spend(&self, budget: usize) -> Option<usize> {
        budget.checked_sub(5)
    }

    #[tactic(auto, unfolding(crate::specs::Reading::schedule_word_at))]
    fn take(_alloc: Global, bytes: &[u8]) -> Result<(Word, &[u8]), Bad> {
        let (kind, rest) = byte_at(bytes)?;
        let (pid, rest) = word_at(rest)?;
        match schedule_word_of(kind, pid) {
            Some(word) => Ok((word, rest)),
            None => Err(Bad::Payload),
        }
    }
}

fn node_of(kind: u8, content: Content) -> Option<Node>
    ensures { result ≡ spec.node_of kind content }
{
    match kind {
        1 => Some(Node::File(content)),
        2 if content.is_empty() => Some(Node::Directory),
        _ => None,
    }
}

fn put_node(out: &mut Vec<u8>, node: &Node) -> Result<(), AllocError>
    ensures { OnOk result (out.new.items ≡ out.old.items ++ spell.node node.now) }
{
    match node {
        Node::File(content) => {
            put_byte(out, 1)?;
            put_text(out, content.as_slice())
        }
        Node::Directory => {
            put_byte(out, 2)?;
            put_text(out, &[])
        }
    }
}

#[tactic(auto, using(crate::proofs::Sizes::sizes))]
fn spend_node(budget: usize, node: &Node) -> Option<usize>
    ensures { Spends result budget (length (spell.node node.now)) }
{
    let budget = budget.checked_sub(1)?;
    match node {
        Node::File(content) => spend_text(budget, content.as_slice()),
        Node::Directory => spend_text(budget, &[]),
    }
}

impl Item for OutcomeFile {
    ghost spelled = { λ f. spell.outcome_file f };

    ghost numbers = { λ f. Unit {0} };

    ghost reads = { λ bytes. spec.outcome_file_at bytes };

    fn put(&self, out: &mut Vec<u8>) -> Result<(), AllocError> {
        put_text(out, self.path.as_slice())?;
        put_node(out, &self.node)
    }

    #[tactic(auto, using(crate::proofs::Sizes::sizes))]
    fn spend(&self, budget: usize) -> Option<usize> {
        let budget = spend_text(budget, self.path.as_slice())?;
        spend_node(budget, &self.node)
    }

    #[tactic(auto, unfolding(crate::specs::Reading::outcome_file_at))]
    fn take(alloc: Global, bytes: &[u8]) -> Result<(OutcomeFile, &[u8]), Bad> {
        let (path, rest) = text_of(alloc, bytes)?;
        let (kind, rest) = byte_at(rest)?;
        let (text, rest) = text_of(alloc, rest)?;
        let content = Content::from_bytes(alloc, text)?;
        match node_of(kind, content) {
            Some(node) => Ok((OutcomeFile { path, node }, rest)),
            None => Err(Bad::Payload),
        }
    }
}

impl Item for Ended {
    ghost spelled = { λ e. spell.ended e };

    ghost numbers = { λ e. spell.FitsEnded e };

    ghost reads = { λ bytes. spec.ended_at bytes };

    fn put(&self, out: &mut Vec<u8>) -> Result<(), AllocError> {
        put_word(out, self.pid)?;
        put_word(out, self.word)
    }

    #[tactic(auto, using(crate::proofs::Sizes::sizes))]
    fn spend(&self, budget: usize) -> Option<usize> {
        budget.checked_sub(8)
    }

    #[tactic(auto, unfolding(crate::specs::Reading::ended_at))]
    fn take(_alloc: Global, bytes: &[u8]) -> Result<(Ended, &[u8]), Bad> {
        let (pid, rest) = word_at(bytes)?;
        let (word, rest) = word_at(rest)?;
        Ok((Ended { pid, word }, rest))
    }
}
