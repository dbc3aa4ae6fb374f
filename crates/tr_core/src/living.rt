//! The tracees that are known and whose end wasn't told, in order of attachment.

ghost use Rattle.std.specs.Prelude.{◌≡◌, ◌==◌, ◌↔◌, [], Some, not, filter, OnOk, OnErr, IsTrue};
ghost use Rattle.pt_model.specs.Tracer.{with_tracee};

use indexmap::IndexSet;
use std::alloc::{AllocError, Global};
use std::marker::Model;

/// A set of pids, which contracts see as a list with the newest last.
#[derive(Drop)]
pub struct Living {
    pids: IndexSet<u32>,
    /// The pid that was added last, where it is there still: it isn't looked for again.
    latest: Option<u32>,
}

impl Model for Living {
    ghost use Rattle.std.specs.Prelude.{◌≡◌, ℕ, List, IfSome, true};
    ghost use Rattle.pt_model.specs.Tracer.{is_among};

    ghost Value = { List ℕ };

    ghost view = { λ l. l.pids.keys };

    ghost invariant = { λ l. IfSome l.latest (λ p. is_among p l.pids.keys ≡ true) };
}

impl Living {
    pub fn new(alloc: Global) -> Self
        ensures { result ≡ [] }
    {
        Living {
            pids: IndexSet::new(alloc),
            latest: None,
        }
    }

    #[inline(always)]
    pub fn add(&mut self, pid: u32) -> Result<(), AllocError>
        ensures { OnOk result (self.new ≡ with_tracee self.old pid) }
    {
        if is_latest(self.latest, pid) {
            return Ok(());
        }
        self.latest = None;
        self.pids.insert(pid)?;
        self.latest = Some(pid);
        Ok(())
    }

    pub fn remove(&mut self, pid: u32)
        ensures { self.new ≡ filter (λ q. not (pid == q)) self.old }
    {
        self.latest = None;
        self.pids.retain(|q| is_other(pid, *q));
    }

    pub fn is_empty(&self) -> bool
        ensures { IsTrue result ↔ (self.now ≡ []) }
    {
        self.pids.is_empty()
    }
}

fn is_latest(latest: Option<u32>, pid: u32) -> bool
    ensures { IsTrue result → latest ≡ Some pid }
{
    latest == Some(pid)
}

fn is_other(pid: u32, other: u32) -> bool
    ensures { result ≡ not (pid == other) }
{
    pid != other
}
