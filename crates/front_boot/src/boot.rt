//! What a run begins with.

ghost use Rattle.std.specs.Prelude.{◌≡◌, IfErr, IfOk, None, OnOk, codes, map};
ghost use Rattle.lx_boot.specs.Boots.{fault_of};
ghost use Rattle.front_boot.specs.Boots.{AsksBoot, given_words, words_of};
ghost use Rattle.front_boot.specs.Files.{Adds, AreFiles, AreFilesOf, IsFileOf};
ghost use Rattle.front_boot.specs.Refusals.{MakesBoot, RefusesAsked, RefusesFiles};
ghost use Rattle.front_end.specs.Texts.{IsAbout};

use crate::boot_faults::check_boot;
use crate::directories::add_directory;
use crate::environment::{bytes_of, environment_of};
use clap::ArgMatches;
use containers::{Bytes, Content, Seq};
use front_end::{Fault, MOST_INPUT, Shown, read_file, read_input};
use lx_abi::limits::{LARGEST_FILE, MOST_CONTENTS};
use lx_abi::{Boot, GuestFile, Limits};
use std::alloc::{AllocError, Global};
use std::io::{IsTerminal, Read, Write};
use std::rt::Files;

/// The words that say what a run begins with.
#[derive(Clone, Copy)]
struct BootWords<'m, 'a> {
    /// Words GUEST=PATH.
    files: &'m [&'a str],
    /// Words GUEST=DIR.
    directories: &'m [&'a str],
    /// Words NAME=VALUE.
    environment: &'m [&'a str],
    /// The program and its arguments.
    program: &'m [&'a str],
    /// Each process has the script's choices, else the first alone.
    follow: bool,
}

/// A guest's file of this path and content.
fn guest_file(alloc: Global, path: &str, content: Vec<u8>) -> Result<GuestFile, AllocError>
    ensures { IfOk result (λ file. (file.path ≡ path.now) × (file.content ≡ content.items)) }
{
    Ok(GuestFile {
        path: Bytes::from_slice(alloc, path.as_bytes())?,
        content: Content::from_bytes(alloc, Bytes::from_vec(content))?,
    })
}

/// A guest's file, from a word GUEST=PATH; of a content over the limit one byte more than it.
fn file<R: Files + AllocGlobal>(rt: &R, word: &str, limit: u64) -> Result<GuestFile, Fault>
    ensures file { IfOk result (IsFileOf R.File.remaining limit word.now) }
    ensures refused { IfErr result (IsAbout (codes "--file ")) }
{
    let alloc = rt.alloc();
    let shown = Shown(word);
    let Some((guest, path)) = word.split_once('=') else {
        return Err(Fault::about(
            alloc,
            "--file ",
            format!(in alloc; "{shown}: no = between the guest's path and the file's"),
        ));
    };
    let content = match read_file(rt, path, limit) {
        Ok(content) => content,
        Err(error) => return Err(Fault::file_of(alloc, "--file ", shown, error)),
    };
    match guest_file(alloc, guest, content) {
        Ok(file) => Ok(file),
        Err(_) => Err(Fault::Memory),
    }
}

/// Adds the file of a word GUEST=PATH, of which `left` bytes may be read.
fn add_file<R: Files + AllocGlobal>(
    rt: &R,
    word: &str,
    files: &mut Seq<GuestFile>,
    left: &mut u64,
) -> Result<(), Fault>
    ensures added { OnOk result (Adds R.File.remaining word.now left.old left.new files.old files.new) }
    ensures refused { IfErr result (IsAbout (codes "--file ")) }
{
    let file = file(rt, word, (*left).min(LARGEST_FILE))?;
    *left = left.saturating_sub(file.content.len() as u64);
    match files.push(file) {
        Ok(()) => Ok(()),
        Err(_) => Err(Fault::Memory),
    }
}

/// The files of words GUEST=PATH, of which `left` bytes may be read together.
fn named_files<R: Files + AllocGlobal>(
    rt: &R,
    words: &[&str],
    left: &mut u64,
) -> Result<Seq<GuestFile>, Fault>
    ensures files { IfOk result (AreFilesOf R.File.remaining left.old (map (λ word. word.now) words.now)) }
    ensures refused { IfErr result (IsAbout (codes "--file ")) }
{
    let mut files = Seq::new(rt.alloc());
    for word in words {
        add_file(rt, word, &mut files, left)?;
    }
    Ok(files)
}

/// The guest's files, those of directories last. One that is too large is cut off after the limit, for the boot to
/// refuse.
fn read_files<R: Files + AllocGlobal>(
    rt: &R,
    words: &[&str],
    directories: &[&str],
) -> Result<Seq<GuestFile>, Fault>
    ensures files { IfOk result (AreFiles R.File.remaining (map (λ word. word.now) words.now)
        (map (λ word. word.now) directories.now)) }
    ensures refused { IfErr result RefusesFiles }
{
    let mut left = MOST_CONTENTS;
    let mut files = named_files(rt, words, &mut left)?;
    for word in directories {
        add_directory(rt, word, &mut files, &mut left)?;
    }
    Ok(files)
}

/// Says that the input is read from a terminal, where there is one to say it on.
fn announce_input<I: IsTerminal, E: Write + IsTerminal>(program: &str, input: &I, err: &mut E) {
    if input.is_terminal() && err.is_terminal() {
        // Whether it can be said or not, the input is read.
        let _said = writeln!(
            err,
            "{program}: reading the guest's input from the terminal, to its end (^D); < /dev/null gives it none"
        );
    }
}

/// The boot that the words and the input ask for. Where the input is a terminal, the program says so on `err`.
fn boot_of<R: Files + AllocGlobal, I: Read + IsTerminal, E: Write + IsTerminal>(
    rt: &R,
    program: &str,
    words: BootWords,
    input: &mut I,
    err: &mut E,
) -> Result<Boot, Fault>
    ensures { MakesBoot R.File.remaining (words_of words.entry) (I.remaining input.old) result }
{
    let alloc = rt.alloc();
    let env = environment_of(alloc, words.environment)?;
    let files = read_files(rt, words.files, words.directories)?;
    announce_input(program, input, err);
    let Ok(argv) = bytes_of(alloc, words.program) else {
        return Err(Fault::Memory);
    };
    let input = read_input(alloc, input, MOST_INPUT)?;
    Ok(Boot {
        limits: Limits::WIDEST,
        files,
        argv,
        env,
        input: Bytes::from_vec(input),
        follow: words.follow,
    })
}

/// The boot that the words of a command ask for.
fn boot_asked<R: Files + AllocGlobal, I: Read + IsTerminal, E: Write + IsTerminal>(
    rt: &R,
    program: &str,
    matches: &ArgMatches,
    follow: bool,
    input: &mut I,
    err: &mut E,
) -> Result<Boot, Fault>
    ensures { MakesBoot R.File.remaining (given_words matches.now follow) (I.remaining input.old) result }
{
    let files = matches.get_strs("file").unwrap_or(&[]);
    let directories = matches.get_strs("dir").unwrap_or(&[]);
    let environment = matches.get_strs("environment").unwrap_or(&[]);
    let arguments = matches.get_strs("program").unwrap_or(&[]);
    let words = BootWords {
        files,
        directories,
        environment,
        program: arguments,
        follow,
    };
    boot_of(rt, program, words, input, err)
}

/// The same, if a kernel takes it.
pub fn read_boot<R: Files + AllocGlobal, I: Read + IsTerminal, E: Write + IsTerminal>(
    rt: &R,
    program: &str,
    matches: &ArgMatches,
    follow: bool,
    input: &mut I,
    err: &mut E,
) -> Result<Boot, Fault>
    ensures asked { IfOk result (AsksBoot R.File.remaining (given_words matches.now follow) (I.remaining input.old)) }
    ensures taken { IfOk result (λ boot. fault_of boot ≡ None) }
    ensures refused { IfErr result
        (RefusesAsked R.File.remaining (given_words matches.now follow) (I.remaining input.old)) }
{
    let boot = boot_asked(rt, program, matches, follow, input, err)?;
    check_boot(rt.alloc(), &boot)?;
    Ok(boot)
}
