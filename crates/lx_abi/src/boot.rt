//! What a run begins with.

use containers::{Bytes, Content, Seq};

/// A file by its absolute path.
#[derive(Drop)]
pub struct GuestFile {
    pub path: Bytes,
    pub content: Content,
}

/// How many processes there may be, as a boot asks for it.
#[derive(Clone, Copy, Debug, PartialEq, Eq)]
pub struct Limits {
    /// The most processes in the table, zombies among them: 1 to 1,024.
    pub live: u32,
    /// The last pid that is given: 1 to 32,767.
    pub last_pid: u32,
}

impl Limits {
    ghost use Rattle.std.specs.Prelude.{◌≡◌};
    ghost use Rattle.lx_abi.specs.Limits.{are_limits};

    /// The most of each.
    pub const WIDEST: Limits = Limits {
        live: 1024,
        last_pid: 32_767,
    };

    /// Whether each is in its range.
    pub fn are_in_range(self) -> bool
        ensures { result ≡ are_limits self }
    {
        (1..=Self::WIDEST.live).contains(&self.live)
            && (1..=Self::WIDEST.last_pid).contains(&self.last_pid)
    }
}

/// The limits, the file tree, the words and the input of a run; with `follow` every process is a tracee, else the first
/// alone.
#[derive(Drop)]
pub struct Boot {
    pub limits: Limits,
    pub files: Seq<GuestFile>,
    pub argv: Seq<Bytes>,
    pub env: Seq<Bytes>,
    pub input: Bytes,
    pub follow: bool,
}
