//! Which occurrences of a call are meant.

ghost use Rattle.std.specs.Prelude.{◌≡◌, ◌<◌, IsTrue};
ghost use Rattle.lx_abi.specs.Whens.{up_to};

/// The occurrences from the first to the last, by steps; the first is always among them.
#[derive(Clone, Copy, Debug, PartialEq, Eq)]
pub struct When {
    pub first: u64,
    pub last: Option<u64>,
    pub step: u64,
    pub ghost moves: { 0 < step },
    pub ghost ordered: { IsTrue (up_to last first) },
}

impl When {
    ghost use Rattle.lx_abi.specs.Scripts.{covers};

    pub fn covers(&self, n: u64) -> bool
        ensures { result ≡ covers self.now n }
    {
        self.first <= n
            && self.last.is_none_or(|last| n <= last)
            && (n - self.first).is_multiple_of(self.step)
    }
}
