//! A failure of one process.

use sweep_rows::Kind;

/// The nth entry of a process into a call, counted from 1.
#[derive(Clone, Copy, Debug, PartialEq, Eq)]
pub struct Place {
    pub pid: u32,
    pub call: u64,
    pub n: u64,
}

/// The nth entry of a process into a call, counted from 1, fails.
#[derive(Clone, Copy, Debug, PartialEq, Eq)]
pub struct Fault {
    pub pid: u32,
    pub call: u64,
    pub n: u64,
    pub kind: Kind,
}

impl Fault {
    ghost use Rattle.std.specs.Prelude.{◌≡◌};
    ghost use Rattle.sweep_faults.specs.Led.{place_of};

    /// Where the call fails.
    pub fn place(self) -> Place
        ensures { result ≡ place_of self }
    {
        Place {
            pid: self.pid,
            call: self.call,
            n: self.n,
        }
    }
}
