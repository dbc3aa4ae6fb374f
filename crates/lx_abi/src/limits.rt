//! What the system bounds. Sizes are in bytes.

/// A path with its NUL (limits.h, PATH_MAX).
pub const PATH_LIMIT: u64 = 4096;

/// A path without its NUL.
pub const LONGEST_PATH: usize = 4095;

/// What stands between two slashes of a path (limits.h, NAME_MAX).
pub const LONGEST_NAME: usize = 255;

/// What a file holds; the last offset, too.
pub const LARGEST_FILE: u64 = 16_777_216;

/// What all files and the console hold together.
pub const MOST_CONTENTS: u64 = 67_108_864;

/// Files and directories, the root among them, by number.
pub const MOST_NODES: usize = 4096;

/// Descriptors of a process, by number: they are 0 to 255.
pub const MOST_FDS: u32 = 256;

/// What a pipe holds.
pub const PIPE_SIZE: usize = 65_536;

/// What one read or write moves.
pub const MOST_MOVED: u64 = 65_536;

/// What a tracer reads by one request.
pub const MOST_PEEKED: u32 = 4096;

/// What the words of a program and its environment take on its first stack, with all that stands below them.
pub const START_LIMIT: usize = 65_536;

/// What a word takes there beside its own bytes: its NUL and its pointer.
pub const WORD_COST: usize = 9;
