//! Lists of values that grow at the end and shrink at the front.

ghost use Rattle.std.specs.Prelude.{◌≡◌, ◌++◌, [], ◌∷◌, ◌==◌, not, filter, OnOk, OnErr, MatchOption};
ghost use Rattle.pt_model.specs.Ptrace.{without};
ghost use Rattle.pt_kernel.specs.Lists.{is_nil};

use pt_model::Report;
use std::alloc::{AllocError, Global};
use std::collections::VecDeque;
use std::marker::Model;

/// A queue, which contracts see as the list of its values, the first to leave first.
#[derive(Drop)]
pub struct ReportQueue<V> {
    items: VecDeque<V>,
}

impl<V> Model for ReportQueue<V> {
    ghost use Rattle.std.specs.Prelude.{List};

    ghost Value = { List V };

    ghost view = { λ q. q.items.items };
}

impl<V> ReportQueue<V> {
    pub fn new(alloc: Global) -> Self
        ensures { result ≡ [] }
    {
        ReportQueue {
            items: VecDeque::new(alloc),
        }
    }

    pub fn is_empty(&self) -> bool
        ensures { result ≡ is_nil self.now }
    {
        self.items.is_empty()
    }

    /// Takes the first value out.
    pub fn pop(&mut self) -> Option<V>
        ensures { MatchOption result ((self.old ≡ []) × (self.new ≡ [])) (λ x. self.old ≡ x ∷ self.new) }
    {
        self.items.pop_front()
    }
}

impl<V: Drop> ReportQueue<V> {
    pub fn push(&mut self, value: V) -> Result<(), AllocError>
        ensures ok { OnOk result (self.new ≡ self.old ++ value ∷ []) }
        ensures err { OnErr result (self.new ≡ self.old) }
    {
        self.items.push_back(value)?;
        Ok(())
    }
}

impl ReportQueue<Report> {
    /// The reports of a process leave.
    pub fn withdraw(&mut self, pid: u32)
        ensures { self.new ≡ without pid self.old }
    {
        self.items.retain(|report| pid != report.pid);
    }
}

impl ReportQueue<u32> {
    /// A process leaves.
    pub fn leave(&mut self, pid: u32)
        ensures { self.new ≡ filter (λ q. not (pid == q)) self.old }
    {
        self.items.retain(|other| pid != *other);
    }
}
