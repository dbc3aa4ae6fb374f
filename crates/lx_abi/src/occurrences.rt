//! How often each process has entered each call.

ghost use Rattle.std.specs.Prelude.{◌≡◌, ◌==◌, ◌&&◌, ◌+◌, OnOk, if◌then◌else◌, ℕ};
ghost use Rattle.lx_abi.specs.Occurrences.{count_of};

use std::alloc::{AllocError, Global};
use std::collections::BTreeMap;

/// Entries of each process into each call, by pid and number.
#[derive(Drop)]
pub struct Occurrences {
    counts: BTreeMap<(u32, u64), u64>,
}

impl Occurrences {
    pub fn new(alloc: Global) -> Self
        ensures { (pid number : ℕ) → count_of result pid number ≡ 0 }
    {
        Occurrences {
            counts: BTreeMap::new(alloc),
        }
    }

    /// The latest occurrence of a call.
    pub fn latest(&self, pid: u32, number: u64) -> u64
        ensures { result ≡ count_of self.now pid number }
    {
        self.counts.get(&(pid, number)).copied().unwrap_or(0)
    }

    /// Counts an entry.
    pub fn count(&mut self, pid: u32, number: u64) -> Result<(), AllocError>
        ensures { OnOk result ((p n : ℕ)
            → count_of self.new p n ≡ (if (p == pid) && (n == number) then 1 else 0) + count_of self.old p n) }
    {
        match self.counts.get_mut(&(pid, number)) {
            Some(count) => {
                // More entries than 64 bits count are more than any memory holds in the log.
                let Some(next) = count.checked_add(1) else {
                    return Err(AllocError);
                };
                *count = next;
            }
            None => {
                self.counts.insert((pid, number), 1)?;
            }
        }
        Ok(())
    }
}

impl Clone for Occurrences {
    ghost is_clone = { λ a b. (pid number : ℕ) → count_of b pid number ≡ count_of a pid number };

    fn clone(&self) -> Result<Self, AllocError> {
        Ok(Occurrences {
            counts: self.counts.clone()?,
        })
    }
}
