//! The files of a directory, and of those below it, as the guest's.

ghost use Rattle.std.specs.Prelude.{◌≡◌, IfErr, IfOk, OnOk, codes, option_map, string_bytes};
ghost use Rattle.front_boot.specs.Directories as spec;
ghost use Rattle.front_boot.specs.Files.{StartWith};
ghost use Rattle.front_end.specs.Texts.{IsAbout};

use containers::{Bytes, Content, Seq};
use front_end::{Fault, Shown, read_file};
use lx_abi::GuestFile;
use lx_abi::limits::{LARGEST_FILE, MOST_NODES};
use std::alloc::{AllocError, AllocFailed, Global};
use std::fs::FileType;
use std::io::{self, ErrorKind, Read};
use std::rt::Files;

/// Why a directory isn't read.
#[derive(Drop)]
enum Unread {
    /// For this reason.
    Because(String),
    /// Memory was refused.
    Memory,
}

impl From<AllocError> for Unread {
    fn from(_error: AllocError) -> Self {
        Unread::Memory
    }
}

impl<T: Drop> From<AllocFailed<T>> for Unread {
    fn from(_error: AllocFailed<T>) -> Self {
        Unread::Memory
    }
}

/// A file or a directory: its path in the guest's tree, and its own.
#[derive(Drop)]
struct Place {
    guest: String,
    path: String,
}

impl Place {
    /// The place of a name in a directory.
    fn place(&self, alloc: Global, name: &str) -> Result<Place, AllocError> {
        Ok(Place {
            guest: below(alloc, self.guest.as_str(), name)?,
            path: below(alloc, self.path.as_str(), name)?,
        })
    }
}

/// What a word of `--dir` leads to.
#[derive(Drop)]
struct Walk {
    /// Files, each directory's in the order of their names.
    files: Vec<Place>,
    /// Directories that are still to be read.
    directories: Vec<Place>,
}

/// The path of a name in a directory.
fn below(alloc: Global, directory: &str, name: &str) -> Result<String, AllocError>
    ensures { IfOk result (λ path. string_bytes path ≡ spec.below directory.now name.now) }
{
    let mut path = String::new(alloc);
    if directory != "/" {
        path.push_str(directory)?;
    }
    path.push('/')?;
    path.push_str(name)?;
    Ok(path)
}

/// The guest's path and the directory of a word GUEST=DIR.
fn divided(word: &str) -> Option<(&str, &str)>
    ensures { option_map (λ parts. (parts.0.now, parts.1.now)) result ≡ spec.divided word.now }
{
    match word.split_once('=') {
        Some((guest, path)) if !guest.is_empty() => Some((guest, path)),
        _ => None,
    }
}

/// What isn't read of a directory.
fn refusal(alloc: Global, path: &str, why: &str) -> Unread {
    match format!(in alloc; "{}: {why}", Shown(path)) {
        Ok(reason) => Unread::Because(reason),
        Err(_) => Unread::Memory,
    }
}

/// What can't be read.
fn unreadable(alloc: Global, path: &str, error: io::Error) -> Unread {
    if error.kind() == ErrorKind::OutOfMemory {
        return Unread::Memory;
    }
    match format!(in alloc; "{}: {error}", Shown(path)) {
        Ok(reason) => Unread::Because(reason),
        Err(_) => Unread::Memory,
    }
}

/// The names that a directory lists, each ended by a NUL, in the order of their bytes, but its own and its parent's.
/// None, if one of them isn't UTF-8.
fn names(alloc: Global, listed: &[u8]) -> Result<Option<Vec<&str>>, AllocError> {
    let mut names = Vec::new(alloc);
    for name in listed.split(|byte| *byte == 0) {
        match str::from_utf8(name) {
            Ok("" | "." | "..") => {}
            Ok(name) => names.push(name)?,
            Err(_) => return Ok(None),
        }
    }
    names.sort()?;
    Ok(Some(names))
}

impl Walk {
    /// Adds what a name in a directory leads to.
    fn add(&mut self, alloc: Global, place: Place, kind: FileType) -> Result<(), Unread> {
        let seen = self.files.len().saturating_add(self.directories.len());
        if seen >= MOST_NODES {
            let why = "with it there are more than 4096 files and directories";
            return Err(refusal(alloc, place.path.as_str(), why));
        }
        if kind.is_dir() {
            self.directories.push(place)?;
        } else if kind.is_file() {
            self.files.push(place)?;
        } else {
            let why = "neither a file nor a directory";
            return Err(refusal(alloc, place.path.as_str(), why));
        }
        Ok(())
    }

    /// Adds what this name in a directory leads to.
    fn look_at<R: Files + AllocGlobal>(
        &mut self,
        rt: &R,
        directory: &Place,
        name: &str,
    ) -> Result<(), Unread> {
        let place = directory.place(rt.alloc(), name)?;
        match rt.symlink_metadata(place.path.as_str()) {
            Ok(metadata) => self.add(rt.alloc(), place, metadata.file_type()),
            Err(error) => Err(unreadable(rt.alloc(), place.path.as_str(), error)),
        }
    }

    /// Adds all that a directory holds.
    fn read<R: Files + AllocGlobal>(&mut self, rt: &R, directory: &Place) -> Result<(), Unread> {
        let path = directory.path.as_str();
        let listed = match listing(rt, path) {
            Ok(listed) => listed,
            Err(error) => return Err(unreadable(rt.alloc(), path, error)),
        };
        let Some(names) = names(rt.alloc(), listed.as_slice())? else {
            return Err(refusal(rt.alloc(), path, "a name in it isn't UTF-8"));
        };
        for name in names.iter().copied() {
            self.look_at(rt, directory, name)?;
        }
        Ok(())
    }

    /// Adds what stands below the directories that are still to be read.
    fn read_all<R: Files + AllocGlobal>(&mut self, rt: &R, path: &str) -> Result<(), Unread> {
        for _ in 0..MOST_NODES {
            match self.directories.pop() {
                Some(directory) => self.read(rt, &directory)?,
                None => return Ok(()),
            }
        }
        Err(refusal(rt.alloc(), path, "more than 4096 directories"))
    }
}

/// The names of a directory, each ended by a NUL. Each read has room for the longest.
fn listing<R: Files + AllocGlobal>(rt: &R, path: &str) -> io::Result<Vec<u8>> {
    let mut listed = Vec::new(rt.alloc());
    let mut names = rt.open_dir(path)?;
    let mut room = [0u8; 4096];
    for _ in 0..u64::MAX {
        let count = names.read(&mut room)?;
        if count == 0 {
            break;
        }
        listed.extend_from_slice(&room[..count])?;
    }
    Ok(listed)
}

/// A directory of the guest's tree, and its own.
fn first_place(alloc: Global, guest: &str, path: &str) -> Result<Place, AllocError> {
    Ok(Place {
        guest: String::from_str(alloc, guest)?,
        path: String::from_str(alloc, path)?,
    })
}

/// The files below a directory, which stands at this path of the guest's.
fn places<R: Files + AllocGlobal>(rt: &R, guest: &str, path: &str) -> Result<Vec<Place>, Unread> {
    let alloc = rt.alloc();
    let mut walk = Walk {
        files: Vec::new(alloc),
        directories: Vec::new(alloc),
    };
    walk.directories.push(first_place(alloc, guest, path)?)?;
    walk.read_all(rt, path)?;
    Ok(walk.files)
}

/// Adds what a place holds, of which `left` bytes may be read: of a file that is too large one byte more.
fn add_place<R: Files + AllocGlobal>(
    rt: &R,
    place: &Place,
    files: &mut Seq<GuestFile>,
    left: &mut u64,
) -> Result<(), Unread>
    ensures { OnOk result (StartWith files.new files.old) }
{
    let alloc = rt.alloc();
    let content = match read_file(rt, place.path.as_str(), (*left).min(LARGEST_FILE)) {
        Ok(content) => content,
        Err(error) => return Err(unreadable(alloc, place.path.as_str(), error)),
    };
    *left = left.saturating_sub(content.len() as u64);
    files.push(GuestFile {
        path: Bytes::from_slice(alloc, place.guest.as_bytes())?,
        content: Content::from_bytes(alloc, Bytes::from_vec(content))?,
    })?;
    Ok(())
}

/// Adds the files below a directory.
fn add_places<R: Files + AllocGlobal>(
    rt: &R,
    guest: &str,
    path: &str,
    files: &mut Seq<GuestFile>,
    left: &mut u64,
) -> Result<(), Unread>
    ensures { OnOk result (StartWith files.new files.old) }
{
    for place in places(rt, guest, path)?.iter() {
        add_place(rt, place, files, left)?;
    }
    Ok(())
}

/// Adds the files of a word GUEST=DIR, of which `left` bytes may be read together.
pub fn add_directory<R: Files + AllocGlobal>(
    rt: &R,
    word: &str,
    files: &mut Seq<GuestFile>,
    left: &mut u64,
) -> Result<(), Fault>
    ensures more { OnOk result (StartWith files.new files.old) }
    ensures refused { IfErr result (IsAbout (codes "--dir ")) }
{
    let alloc = rt.alloc();
    let shown = Shown(word);
    let Some((guest, path)) = divided(word) else {
        let text = format!(in alloc; "{shown}: not GUEST=DIR");
        return Err(Fault::about(alloc, "--dir ", text));
    };
    match add_places(rt, guest, path, files, left) {
        Ok(()) => Ok(()),
        Err(Unread::Because(reason)) => {
            let text = format!(in alloc; "{shown}: {reason}");
            Err(Fault::about(alloc, "--dir ", text))
        }
        Err(Unread::Memory) => Err(Fault::Memory),
    }
}
