//! The events of a run, in the order in which they came.

ghost use Rattle.std.specs.Prelude.{◌≡◌, ◌++◌, [], None, Some, OnOk, IfSome, IsTrue, if◌then◌else◌, replicate};
ghost use Rattle.pt_kernel.specs.Noted.{all_events, events_in, noting};

use lx_abi::Event;
use std::alloc::{AllocError, Global};
use std::marker::Model;

/// The same event, so many times in a row.
#[derive(Clone, Copy, Debug, PartialEq, Eq)]
pub struct EventRow {
    pub event: Event,
    pub times: u64,
}

/// Events, which contracts see as a list, or nothing where none are noted. They take room where another event comes
/// than the one before.
#[derive(Drop)]
pub struct Events {
    rows: Option<Vec<EventRow>>,
}

impl Model for Events {
    ghost use Rattle.std.specs.Prelude.{List, Option, option_map};
    ghost use Rattle.lx_abi.specs.declared.schedule.Event.{Event};
    ghost use Rattle.pt_kernel.specs.Noted.{all_events};

    ghost Value = { Option (List Event) };

    ghost view = { λ e. option_map (λ rows. all_events rows.items) e.rows };
}

fn is_same(first: Event, second: Event) -> bool
    ensures { IsTrue result → first ≡ second }
{
    match (first, second) {
        (Event::Turn { pid: first }, Event::Turn { pid: second }) => first == second,
        (Event::Serve, Event::Serve) => true,
        _ => false,
    }
}

/// More of a row's event, where it is this one.
fn add(row: &mut EventRow, event: Event, times: u64) -> bool
    ensures { events_in row.new ≡ (if result then events_in row.old ++ replicate times event else events_in row.old) }
{
    if !is_same(row.event, event) || row.times > u64::MAX - times {
        return false;
    }
    row.times += times;
    true
}

/// More of the last row's event, where it is this one.
fn lengthen(rows: &mut Vec<EventRow>, event: Event, times: u64) -> bool
    ensures { all_events rows.new.items
        ≡ (if result then all_events rows.old.items ++ replicate times event else all_events rows.old.items) }
{
    if rows.is_empty() {
        return false;
    }
    let at = rows.len() - 1;
    add(&mut rows[at], event, times)
}

fn push(rows: &mut Vec<EventRow>, event: Event, times: u64) -> Result<(), AllocError>
    ensures { OnOk result (all_events rows.new.items ≡ all_events rows.old.items ++ replicate times event) }
{
    if lengthen(rows, event, times) {
        return Ok(());
    }
    rows.push(EventRow { event, times })?;
    Ok(())
}

impl Events {
    /// Nothing is noted.
    pub fn none() -> Self
        ensures { result ≡ None }
    {
        Events { rows: None }
    }

    /// What comes is noted.
    pub fn noted(alloc: Global) -> Self
        ensures { result ≡ Some [] }
    {
        Events {
            rows: Some(Vec::new(alloc)),
        }
    }

    /// Notes an event that came so many times.
    #[inline(always)]
    pub fn note(&mut self, event: Event, times: u64) -> Result<(), AllocError>
        ensures { OnOk result (self.new ≡ noting self.old (replicate times event)) }
    {
        match &mut self.rows {
            None => Ok(()),
            Some(rows) => push(rows, event, times),
        }
    }

    /// The events as rows.
    pub fn rows(&self) -> &[EventRow]
        ensures { IfSome self.now (λ events. all_events result.now ≡ events) }
    {
        match &self.rows {
            None => &[],
            Some(rows) => rows.as_slice(),
        }
    }
}
