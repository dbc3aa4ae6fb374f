//! What became of a run's files.

ghost use Rattle.std.specs.Prelude.{◌≡◌, ◌++◌, IfOk, OnOk, option_map};
ghost use Rattle.std.specs.List.{flat_map};
ghost use Rattle.std.specs.Option.{option_copied};
ghost use Rattle.sweep_rows.specs.Files.{begins, same_content, holds, is_cut};
ghost use Rattle.sweep_rows.specs.Files.{there_word, changed_word, word_of, is_bad, is_whole, is_elsewhere};
ghost use Rattle.sweep_rows.specs.Files.{stands_elsewhere, is_null, note_of, note_at, note_given, note_new};
ghost use Rattle.sweep_rows.specs.Files.{file_notes};

use crate::index::{GivenFiles, LeftFiles, content_of};
use containers::Bytes;
use lx_abi::{GuestFile, OutcomeFile};
use std::alloc::{AllocError, Global};

/// How a file stands, which isn't as the reference leaves it. The numbers are the bytes that it has, and those that the
/// reference's has.
#[derive(Clone, Copy, Debug, PartialEq, Eq)]
pub enum Word {
    /// As before the run.
    Old,
    /// It isn't made.
    Absent,
    /// It was there before, and isn't now.
    Gone,
    /// It is there, and is neither before nor in the reference.
    Left(usize),
    /// It begins as the reference's, and has all that was there before.
    Cut(usize, usize),
    /// It wasn't there before, and is other than the reference's.
    Other(usize, usize),
    /// It was there before, and is neither that nor the reference's.
    Torn(usize, usize),
}

/// A file with its word.
#[derive(Drop)]
pub struct FileNote {
    pub path: Bytes,
    pub word: Word,
    /// It is torn or gone, and another file has all that it had before or has in the reference.
    pub saved: bool,
}

fn same_content(a: Option<&[u8]>, b: Option<&[u8]>) -> bool
    ensures { result ≡ same_content (option_copied a.entry) (option_copied b.entry) }
{
    match (a, b) {
        (None, None) => true,
        (Some(a), Some(b)) => a == b,
        _ => false,
    }
}

/// The text begins with this, if there is any.
fn holds(text: &[u8], start: Option<&[u8]>) -> bool
    ensures { result ≡ holds text.now (option_copied start.entry) }
{
    match start {
        None => true,
        Some(start) => text.starts_with(start),
    }
}

fn is_cut(before: Option<&[u8]>, after: &[u8], now: &[u8]) -> bool
    ensures { result ≡ is_cut (option_copied before.entry) after.now now.now }
{
    after.starts_with(now) && holds(now, before)
}

/// The word of a file that is there, as neither before nor after.
fn there_word(before: Option<&[u8]>, after: Option<&[u8]>, now: &[u8]) -> Word
    ensures { result ≡ there_word (option_copied before.entry) (option_copied after.entry) now.now }
{
    match (before, after) {
        (None, None) => Word::Left(now.len()),
        (Some(_), None) => Word::Torn(now.len(), 0),
        (None, Some(after)) => {
            if is_cut(None, after, now) {
                Word::Cut(now.len(), after.len())
            } else {
                Word::Other(now.len(), after.len())
            }
        }
        (Some(before), Some(after)) => {
            if is_cut(Some(before), after, now) {
                Word::Cut(now.len(), after.len())
            } else {
                Word::Torn(now.len(), after.len())
            }
        }
    }
}

/// The word of a file that is neither as before nor as after.
fn changed_word(before: Option<&[u8]>, after: Option<&[u8]>, now: Option<&[u8]>) -> Word
    ensures { result
        ≡ changed_word (option_copied before.entry) (option_copied after.entry) (option_copied now.entry) }
{
    match now {
        None => Word::Gone,
        Some(now) => there_word(before, after, now),
    }
}

/// The word of a file that has these contents before the run, after the reference and after the run.
#[tactic(auto, unfolding(crate::specs::Files::word_of))]
fn word_of(before: Option<&[u8]>, after: Option<&[u8]>, now: Option<&[u8]>) -> Option<Word>
    ensures { result ≡ word_of (option_copied before.entry) (option_copied after.entry) (option_copied now.entry) }
{
    if same_content(now, after) {
        return None;
    }
    if !same_content(now, before) {
        return Some(changed_word(before, after, now));
    }
    Some(if before.is_some() {
        Word::Old
    } else {
        Word::Absent
    })
}

/// A file that was there is neither as before nor as after.
fn is_bad(word: Word) -> bool
    ensures { result ≡ is_bad word }
{
    matches!(word, Word::Torn(..) | Word::Gone)
}

/// A content that isn't empty is one of these.
fn is_whole(content: &[u8], before: Option<&[u8]>, after: Option<&[u8]>) -> bool
    ensures { result ≡ is_whole (option_copied before.entry) (option_copied after.entry) content.now }
{
    !content.is_empty()
        && (same_content(Some(content), before) || same_content(Some(content), after))
}

/// The file is at another path, and has one of these contents.
#[tactic(auto, unfolding(crate::specs::Files::is_elsewhere))]
fn is_elsewhere(
    file: &OutcomeFile,
    path: &[u8],
    before: Option<&[u8]>,
    after: Option<&[u8]>,
) -> bool
    ensures { result ≡ is_elsewhere path.now (option_copied before.entry) (option_copied after.entry) file.now }
{
    file.path.as_slice() != path && is_whole(content_of(&file.node), before, after)
}

/// A file at another path has one of these contents.
#[tactic(auto, unfolding(crate::specs::Files::stands_elsewhere))]
fn stands_elsewhere(
    files: &[OutcomeFile],
    path: &[u8],
    before: Option<&[u8]>,
    after: Option<&[u8]>,
) -> bool
    ensures { result
        ≡ stands_elsewhere path.now (option_copied before.entry) (option_copied after.entry) files.now }
{
    files
        .iter()
        .any(|file| is_elsewhere(file, path, before, after))
}

/// What is written there is meant to be lost (null(4)).
#[tactic(auto, unfolding(crate::specs::Files::is_null))]
fn is_null(path: &[u8]) -> bool
    ensures { result ≡ is_null path.now }
{
    path == b"/dev/null".as_slice()
}

/// Adds what is to be noted of a path.
#[tactic(auto, unfolding(crate::specs::Files::note_at))]
fn add_note<'a>(
    alloc: Global,
    notes: &mut Vec<FileNote>,
    boot: &GivenFiles<'a>,
    reference: &LeftFiles<'a>,
    run: &LeftFiles<'a>,
    path: &'a [u8],
) -> Result<(), AllocError>
    ensures { OnOk result (notes.new.items ≡ notes.old.items ++ note_at boot.now reference.now run.now path.now) }
{
    if is_null(path) {
        return Ok(());
    }
    let before = boot.at(path);
    let after = reference.at(path);
    if let Some(word) = word_of(before, after, run.at(path)) {
        let saved = is_bad(word) && stands_elsewhere(run.list(), path, before, after);
        let path = Bytes::from_slice(alloc, path)?;
        notes.push(FileNote { path, word, saved })?;
    }
    Ok(())
}

#[tactic(auto, unfolding(crate::specs::Files::note_given))]
fn add_given<'a>(
    alloc: Global,
    notes: &mut Vec<FileNote>,
    boot: &GivenFiles<'a>,
    reference: &LeftFiles<'a>,
    run: &LeftFiles<'a>,
    path: &'a [u8],
) -> Result<(), AllocError>
    ensures { OnOk result
        (notes.new.items ≡ notes.old.items ++ note_given boot.now reference.now run.now path.now) }
{
    if reference.at(path).is_some() {
        return Ok(());
    }
    add_note(alloc, notes, boot, reference, run, path)
}

#[tactic(auto, unfolding(crate::specs::Files::note_new))]
fn add_new<'a>(
    alloc: Global,
    notes: &mut Vec<FileNote>,
    boot: &GivenFiles<'a>,
    reference: &LeftFiles<'a>,
    run: &LeftFiles<'a>,
    path: &'a [u8],
) -> Result<(), AllocError>
    ensures { OnOk result (notes.new.items ≡ notes.old.items ++ note_new boot.now reference.now run.now path.now) }
{
    if boot.at(path).is_some() {
        return Ok(());
    }
    add_given(alloc, notes, boot, reference, run, path)
}

fn add_all_left<'a>(
    alloc: Global,
    notes: &mut Vec<FileNote>,
    boot: &GivenFiles<'a>,
    reference: &LeftFiles<'a>,
    run: &LeftFiles<'a>,
) -> Result<(), AllocError>
    ensures { OnOk result (notes.new.items ≡ notes.old.items
        ++ flat_map (λ f. note_at boot.now reference.now run.now f.path) reference.now) }
{
    let mut left = reference.list();
    while let Some((file, rest)) = left.split_first() {
        add_note(alloc, notes, boot, reference, run, file.path.as_slice())?;
        left = rest;
    }
    Ok(())
}

fn add_all_given<'a>(
    alloc: Global,
    notes: &mut Vec<FileNote>,
    boot: &GivenFiles<'a>,
    reference: &LeftFiles<'a>,
    run: &LeftFiles<'a>,
) -> Result<(), AllocError>
    ensures { OnOk result (notes.new.items ≡ notes.old.items
        ++ flat_map (λ f. note_given boot.now reference.now run.now f.path) boot.now) }
{
    let mut left = boot.list();
    while let Some((file, rest)) = left.split_first() {
        add_given(alloc, notes, boot, reference, run, file.path.as_slice())?;
        left = rest;
    }
    Ok(())
}

fn add_all_new<'a>(
    alloc: Global,
    notes: &mut Vec<FileNote>,
    boot: &GivenFiles<'a>,
    reference: &LeftFiles<'a>,
    run: &LeftFiles<'a>,
) -> Result<(), AllocError>
    ensures { OnOk result (notes.new.items ≡ notes.old.items
        ++ flat_map (λ f. note_new boot.now reference.now run.now f.path) run.now) }
{
    let mut left = run.list();
    while let Some((file, rest)) = left.split_first() {
        add_new(alloc, notes, boot, reference, run, file.path.as_slice())?;
        left = rest;
    }
    Ok(())
}

/// The files that a run leaves otherwise than the reference: of those that the reference leaves, that were there
/// before, and others.
#[tactic(auto, unfolding(crate::specs::Files::file_notes))]
pub fn file_notes(
    alloc: Global,
    boot: &[GuestFile],
    reference: &[OutcomeFile],
    run: &[OutcomeFile],
) -> Result<Vec<FileNote>, AllocError>
    ensures { IfOk result (λ notes. notes.items ≡ file_notes boot.now reference.now run.now) }
{
    let boot = GivenFiles::new(alloc, boot)?;
    let reference = LeftFiles::new(alloc, reference)?;
    let run = LeftFiles::new(alloc, run)?;
    let mut notes = Vec::new(alloc);
    add_all_left(alloc, &mut notes, &boot, &reference, &run)?;
    add_all_given(alloc, &mut notes, &boot, &reference, &run)?;
    add_all_new(alloc, &mut notes, &boot, &reference, &run)?;
    Ok(notes)
}
