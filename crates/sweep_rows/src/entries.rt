//! The occurrences of calls that a log has.

ghost use Rattle.std.specs.Prelude.{◌≡◌, ◌&&◌, IfOk, OnOk, List};
ghost use Rattle.lx_abi.specs.Scripts.{includes};
ghost use Rattle.lx_abi.specs.declared.log.Item.{Item as LogItem};
ghost use Rattle.lx_model.specs.Kernel.{traces};
ghost use Rattle.sweep_rows.specs.Entries.{rows_of};
ghost use Rattle.sweep_rows.specs.Counts.{Counted, IsAdded};
ghost use Rattle.sweep_rows.specs.Known.{IsKnown};

use crate::known::{Known, Occurrence};
use lx_abi::{Item, Occurrences, Set};
use std::alloc::{AllocError, Global};

/// Occurrences so far, and what they are counted by.
#[derive(Drop)]
pub(crate) struct Rows {
    found: Vec<Occurrence>,
    /// How often each process has entered each call.
    entered: Occurrences,
}

/// Such a call of the process is meant.
fn is_meant(set: &Set, follow: bool, pid: u32, number: u64) -> bool
    ensures { result ≡ (includes set.now number && traces follow pid) }
{
    set.contains(number) && (follow || pid == 1)
}

impl Rows {
    /// One item more of a log that tells this.
    fn add(&mut self, set: &Set, follow: bool, item: &Item, known: &Known) -> Result<(), AllocError>
        ensures { OnOk result ((past : List LogItem) → IsKnown past known.now → Counted past self.old
            → IsAdded set.now follow past item.now self.old self.new) }
    {
        let Item::Enter { pid, call } = item else {
            return Ok(());
        };
        self.entered.count(*pid, call.number)?;
        if is_meant(set, follow, *pid, call.number) {
            let n = self.entered.latest(*pid, call.number);
            self.found.push(known.occurrence(*pid, *call, n))?;
        }
        Ok(())
    }
}

/// The entries of processes into the calls of a set, in the order of the log: of each process with `follow`, else of
/// process 1.
pub fn occurrences(
    alloc: Global,
    log: &[Item],
    set: &Set,
    follow: bool,
) -> Result<Vec<Occurrence>, AllocError>
    ensures { IfOk result (λ rows. rows.items ≡ rows_of set.now follow log.now) }
{
    let mut rows = Rows {
        found: Vec::new(alloc),
        entered: Occurrences::new(alloc),
    };
    let mut known = Known::new(alloc);
    let mut left = log;
    while let Some((item, rest)) = left.split_first() {
        rows.add(set, follow, item, &known)?;
        known.add(item)?;
        left = rest;
    }
    Ok(rows.found)
}
