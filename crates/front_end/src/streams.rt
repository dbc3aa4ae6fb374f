//! The streams that stand open in this process, by their names as files.

ghost use Rattle.std.specs.Prelude.{◌≡◌, option_map};
ghost use Rattle.std.specs.Io.{WritesAtMost};
ghost use Rattle.front_end.specs.Streams as spec;

use crate::options::decimal;
use std::fs::OpenFile;
use std::io::{self, ErrorKind, Write};

/// The highest number that a stream can have.
const HIGHEST: u64 = 2_147_483_647;

/// How many standard streams there are; other streams have higher numbers.
const STANDARD: u64 = 3;

/// The system's number, EBADF, of the fault of a stream that isn't open for what is asked of it.
const NOT_OPEN: i32 = 9;

/// The digits in a name of a stream by its number.
fn digits_of(path: &str) -> Option<&str>
    ensures { option_map (λ digits. digits.now) result ≡ spec.digits_of path.now }
{
    if let Some(digits) = path.strip_prefix("/dev/fd/") {
        return Some(digits);
    }
    if let Some(digits) = path.strip_prefix("/proc/self/fd/") {
        return Some(digits);
    }
    None
}

/// The number of a stream that is named by it.
#[tactic(auto, unfolding(crate::specs::Streams::numbered))]
fn numbered(path: &str) -> Option<u64>
    ensures { result ≡ spec.numbered path.now }
{
    match digits_of(path) {
        Some(digits) => decimal(digits, HIGHEST),
        None => None,
    }
}

/// The number of a stream of this process, by one of the names that it has as a file.
#[tactic(auto, unfolding(crate::specs::Streams::stream_of))]
pub fn number_of(path: &str) -> Option<u64>
    ensures { result ≡ spec.stream_of path.now }
{
    match path {
        "/dev/stdin" => Some(0),
        "/dev/stdout" => Some(1),
        "/dev/stderr" => Some(2),
        _ => numbered(path),
    }
}

/// Writes some bytes to the stream of this number, where it stands.
fn write_stream(number: u64, bytes: &[u8]) -> io::Result<usize>
    ensures { WritesAtMost result bytes.now }
{
    let Ok(number) = i32::try_from(number) else {
        return Err(io::Error::from(ErrorKind::NotFound));
    };
    match usize::try_from(os::write_no_sigpipe(number, bytes)) {
        Ok(count) => Ok(count.min(bytes.len())),
        Err(_) => Err(io::Error::from_raw_os_error(os::errno())),
    }
}

/// The stream of this number stands open, and can be written, even if it is full.
pub fn check_stream(number: u64) -> io::Result<()> {
    match write_stream(number, b"") {
        Err(error) if error.raw_os_error() == Some(NOT_OPEN) => Err(error),
        _ => Ok(()),
    }
}

/// The stream that a path names, if it is no standard one, stands open and can be written. As long as the program has
/// opened nothing for writing, it is none of its own.
pub fn check_given_stream(path: &str) -> io::Result<()> {
    match number_of(path) {
        Some(number) if number >= STANDARD => check_stream(number),
        _ => Ok(()),
    }
}

/// What is written as it comes: a file, or the stream that stands open in this process under this number.
#[derive(Drop)]
pub enum Opened<F: Drop> {
    File(F),
    Stream(u64),
}

impl<F: OpenFile + Drop> Opened<F> {
    /// It is a regular file, and was opened by its path.
    pub fn is_regular(&self) -> bool {
        match self {
            Opened::File(file) => match file.metadata() {
                Ok(metadata) => metadata.is_file(),
                Err(_) => false,
            },
            Opened::Stream(_) => false,
        }
    }
}

impl<F: Write + Drop> Write for Opened<F> {
    ghost use Rattle.front_end.specs.Streams.{opened_contents};

    ghost contents = { λ opened. opened_contents F.contents opened };

    fn write(&mut self, buf: &[u8]) -> io::Result<usize> {
        match self {
            Opened::File(file) => file.write(buf),
            Opened::Stream(number) => write_stream(*number, buf),
        }
    }

    fn flush(&mut self) -> io::Result<()> {
        match self {
            Opened::File(file) => file.flush(),
            Opened::Stream(_) => Ok(()),
        }
    }
}
