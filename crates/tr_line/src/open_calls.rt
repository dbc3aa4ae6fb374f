//! The number of the open call of each process that has one.

ghost use Rattle.std.specs.Prelude.{◌≡◌, OnOk, OnErr};
ghost use Rattle.std.specs.FinMap as maps;
ghost use Rattle.tr_line.specs.OpenCalls.{without};

use containers::Map;
use std::alloc::{AllocError, Global};
use std::marker::Model;

#[derive(Clone, Copy, Debug)]
pub struct OpenCall {
    pub pid: u32,
    pub number: u64,
}

/// A map from pids to the numbers of their open calls. The one that was entered last stands apart, so that a call that
/// returns before another is entered takes no place in the tree.
#[derive(Drop)]
pub struct OpenCalls {
    latest: Option<OpenCall>,
    others: Map<u64>,
}

impl Model for OpenCalls {
    ghost use Rattle.std.specs.Ordering.{nat_cmp};
    ghost use Rattle.std.specs.Prelude.{ℕ};
    ghost use Rattle.std.specs.Coded.{coded_ℕ};
    ghost use Rattle.std.specs.FinMap as maps;
    ghost use Rattle.tr_line.specs.OpenCalls.{with_latest};

    ghost Value = { maps.FinMap nat_cmp ℕ };

    ghost coded = { maps.code coded_ℕ coded_ℕ };

    ghost view = { λ c. with_latest c.others c.latest };
}

/// The call, if it isn't that of the process.
fn without(latest: Option<OpenCall>, pid: u32) -> Option<OpenCall>
    ensures { result ≡ without latest pid }
{
    match latest {
        Some(open) if open.pid != pid => Some(open),
        _ => None,
    }
}

impl OpenCalls {
    pub fn new(alloc: Global) -> Self
        ensures { result ≡ maps.empty }
    {
        OpenCalls {
            latest: None,
            others: Map::new(alloc),
        }
    }

    pub fn get(&self, pid: u32) -> Option<u64>
        ensures { result ≡ maps.get self.now pid }
    {
        match self.latest {
            Some(open) if open.pid == pid => Some(open.number),
            _ => self.others.get(pid).copied(),
        }
    }

    pub fn insert(&mut self, pid: u32, number: u64) -> Result<(), AllocError>
        ensures ok { OnOk result (self.new ≡ maps.insert self.old pid number) }
        ensures err { OnErr result (self.new ≡ self.old) }
    {
        if let Some(open) = self.latest {
            self.others.insert(open.pid, open.number)?;
        }
        self.latest = Some(OpenCall { pid, number });
        Ok(())
    }

    pub fn remove(&mut self, pid: u32)
        ensures { self.new ≡ maps.remove self.old pid }
    {
        self.latest = without(self.latest, pid);
        self.others.remove(pid);
    }
}
