//! What is known of a guest's program before it runs, for whoever asks why it didn't.

use crate::shown::Shown;
use elf_image::{ElfFault, FaultyField, content_of, faulty_field, is_compressed};
use lx_abi::{Boot, GuestFile};
use std::alloc::{AllocError, Global};

/// The status of a process whose first execve failed.
const NOT_STARTED: u8 = 127;

/// The statuses of a process that SIGILL, SIGBUS or SIGSEGV ended.
const ILLEGAL: u8 = 132;

const MISALIGNED: u8 = 135;

const BAD_ADDRESS: u8 = 139;

/// The type of the program header that names a loader, PT_INTERP.
const LOADER: u32 = 3;

/// The type of the program header that leads to the file's attributes, PT_RISCV_ATTRIBUTES.
const ATTRIBUTES: u32 = 0x7000_0003;

/// What the file of a program is.
#[derive(Clone, Copy, Debug, PartialEq, Eq)]
enum Kind {
    /// There is no file of its name.
    Missing,
    /// It isn't run, for this reason.
    Refused(&'static str),
    /// It wants a loader, which isn't run.
    Dynamic,
    /// It has compressed instructions.
    Compressed,
    /// It has instructions of other extensions.
    Extended,
    Usual,
}

/// A guest's program.
#[derive(Drop)]
pub struct Program {
    path: String,
    kind: Kind,
}

/// The absolute path of the program, as process 1 finds it in `/`.
fn path_of(alloc: Global, word: &str) -> Result<String, AllocError> {
    let word = word.strip_prefix("./").unwrap_or(word);
    if word.starts_with('/') {
        format!(in alloc; "{word}")
    } else {
        format!(in alloc; "/{word}")
    }
}

/// A program header names a loader.
fn wants_loader(content: &[u8]) -> bool {
    content_of(content, LOADER).is_some()
}

/// The file's attributes name extensions of RV64I, as `_m2p0` in `rv64i2p1_m2p0`.
fn has_extensions(content: &[u8]) -> bool {
    let attributes = content_of(content, ATTRIBUTES).unwrap_or(&[]);
    attributes.split(|byte| *byte == 0).any(|text| {
        let text = str::from_utf8(text).unwrap_or("");
        match text.split_once("rv64i") {
            Some((_, rest)) => rest.contains('_'),
            None => false,
        }
    })
}

/// Why a file that isn't of RISC-V isn't run, by the field that says so.
fn machine(field: Option<FaultyField>) -> &'static str {
    match field {
        Some(FaultyField::Machine(62)) => "is built for x86-64, not for RV64I",
        Some(FaultyField::Machine(3)) => "is built for i386, not for RV64I",
        Some(FaultyField::Machine(183)) => "is built for AArch64, not for RV64I",
        Some(FaultyField::Machine(40)) => "is built for Arm, not for RV64I",
        _ => "is not a 64-bit RISC-V file",
    }
}

/// Why a file that is no executable isn't run.
fn other_file(content: &[u8], field: Option<FaultyField>) -> &'static str {
    match field {
        Some(FaultyField::FileType(3)) if wants_loader(content) => {
            "is dynamic and position-independent; link it with -static -no-pie"
        }
        Some(FaultyField::FileType(3)) => "is position-independent; link it with -static -no-pie",
        _ => "is not an executable; link it",
    }
}

/// Why a file isn't run, behind its path.
fn refusal_of(content: &[u8], fault: ElfFault) -> Result<&'static str, AllocError> {
    let field = faulty_field(content, fault);
    Ok(match fault {
        ElfFault::NotElf if content.starts_with(b"#!") => "is a script, and scripts aren't run",
        ElfFault::NotElf => "is not an ELF file",
        ElfFault::NotRiscv => machine(field),
        ElfFault::NotExec => other_file(content, field),
        ElfFault::Truncated => "is cut off or malformed",
        ElfFault::Overlap => "has segments that overlap, or that hold more than their size",
        ElfFault::TooLarge => "is too large",
        ElfFault::Memory => return Err(AllocError),
    })
}

fn kind_of(alloc: Global, content: &[u8]) -> Result<Kind, AllocError> {
    Ok(match elf_image::read(alloc, content) {
        Err(fault) => Kind::Refused(refusal_of(content, fault)?),
        Ok(_) if wants_loader(content) => Kind::Dynamic,
        Ok(_) if is_compressed(content) => Kind::Compressed,
        Ok(_) if has_extensions(content) => Kind::Extended,
        Ok(_) => Kind::Usual,
    })
}

fn file_of<'b>(files: &'b [GuestFile], path: &str) -> Option<&'b GuestFile> {
    files
        .iter()
        .find(|file| file.path.as_slice() == path.as_bytes())
}

impl Program {
    /// The program of a boot.
    pub fn of(alloc: Global, boot: &Boot) -> Result<Self, AllocError> {
        let word = match boot.argv.as_slice().first() {
            Some(word) => str::from_utf8(word.as_slice()).unwrap_or(""),
            None => "",
        };
        let path = path_of(alloc, word)?;
        let kind = match file_of(boot.files.as_slice(), path.as_str()) {
            Some(file) => kind_of(alloc, file.content.as_slice())?,
            None => Kind::Missing,
        };
        Ok(Program { path, kind })
    }

    /// Why the program ended so, if its file says it.
    pub fn reason(&self, alloc: Global, status: u8) -> Result<Option<String>, AllocError> {
        let path = Shown(self.path.as_str());
        let text = match (self.kind, status) {
            (Kind::Missing, NOT_STARTED) => {
                format!(in alloc; "the guest has no file {path}; --file {path}=PATH gives it one")?
            }
            (Kind::Refused(what), NOT_STARTED) => format!(in alloc; "{path} {what}")?,
            (Kind::Dynamic, ILLEGAL | MISALIGNED | BAD_ADDRESS) => format!(in alloc;
                "{path} is dynamic, and its loader isn't run; link it with -static"
            )?,
            (Kind::Compressed, ILLEGAL | MISALIGNED) => format!(in alloc;
                "{path} has compressed instructions, which aren't run; build it with -march=rv64i -mabi=lp64"
            )?,
            (Kind::Extended, ILLEGAL) => format!(in alloc;
                "{path} is built for more than RV64I; build it with -march=rv64i -mabi=lp64"
            )?,
            _ => return Ok(None),
        };
        Ok(Some(text))
    }
}
