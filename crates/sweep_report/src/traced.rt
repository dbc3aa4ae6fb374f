//! The calls of the run without a failure as its trace shows them.

use crate::callers::Callers;
use containers::Map;
use lx_abi::calls::call_number;
use lx_abi::{Item, Occurrences};
use std::alloc::{AllocError, Global};

/// A process's calls with one number, in their order: what the lines show of each.
#[derive(Drop)]
struct Entered {
    number: u64,
    texts: Vec<String>,
}

/// A process's calls, and the number of the latest.
#[derive(Drop)]
struct Process {
    entered: Vec<Entered>,
    latest: u64,
}

/// The calls that a trace shows.
#[derive(Drop)]
pub struct TracedCalls {
    processes: Map<Process>,
    /// For each item of the log how often its process has entered the call, if it is one's end.
    ends: Vec<u64>,
    callers: Callers,
}

/// The number of a call by the name that a trace shows.
fn number_of(name: &str) -> Option<u64> {
    match name.strip_prefix("syscall_0x") {
        Some(digits) => u64::from_str_radix(digits, 16).ok(),
        None => call_number(name),
    }
}

/// The pid and the rest of a line; process 1 alone is traced without `follow`.
fn divide(line: &str, follow: bool) -> (u32, &str) {
    if !follow {
        return (1, line);
    }
    match line.split_once(' ') {
        Some((pid, rest)) => (pid.parse().unwrap_or(0), rest.trim_start()),
        None => (0, line),
    }
}

impl Process {
    /// The place of its calls with this number.
    fn place(&self, number: u64) -> Option<usize> {
        self.entered
            .iter()
            .position(|entered| entered.number == number)
    }

    /// What the lines show of its calls with this number.
    fn texts(&self, number: u64) -> Option<&[String]> {
        let place = self.place(number)?;
        Some(self.entered.get(place)?.texts.as_slice())
    }

    /// It enters a call, of which the line shows this.
    fn enter(&mut self, alloc: Global, number: u64, text: &str) -> Result<(), AllocError> {
        self.latest = number;
        let text = format!(in alloc; "{text}")?;
        if let Some(place) = self.place(number) {
            if let Some(entered) = self.entered.get_mut(place) {
                entered.texts.push(text)?;
            }
            return Ok(());
        }
        let mut texts = Vec::new(alloc);
        texts.push(text)?;
        self.entered.push(Entered { number, texts })?;
        Ok(())
    }

    /// The rest of its latest call.
    fn resume(&mut self, rest: &str) -> Result<(), AllocError> {
        let Some(place) = self.place(self.latest) else {
            return Ok(());
        };
        let Some(entered) = self.entered.get_mut(place) else {
            return Ok(());
        };
        match entered.texts.last_mut() {
            Some(text) => text.push_str(rest),
            None => Ok(()),
        }
    }
}

/// How often a process has entered the call that an item ends.
fn end_of(entered: &mut Occurrences, item: &Item) -> Result<u64, AllocError> {
    match item {
        Item::Enter { pid, call } => {
            entered.count(*pid, call.number)?;
            Ok(0)
        }
        Item::Done { pid, call, .. } => Ok(entered.latest(*pid, call.number)),
        _ => Ok(0),
    }
}

/// For each item of a log how often its process has entered the call that it ends.
fn ends_of(alloc: Global, log: &[Item]) -> Result<Vec<u64>, AllocError> {
    let mut entered = Occurrences::new(alloc);
    let mut ends = Vec::new(alloc);
    for item in log {
        ends.push(end_of(&mut entered, item)?)?;
    }
    Ok(ends)
}

impl TracedCalls {
    /// A process enters a call, of which the line shows this.
    fn enter(
        &mut self,
        alloc: Global,
        pid: u32,
        number: u64,
        text: &str,
    ) -> Result<(), AllocError> {
        if self.processes.get(pid).is_none() {
            let process = Process {
                entered: Vec::new(alloc),
                latest: number,
            };
            self.processes.insert(pid, process)?;
        }
        match self.processes.get_mut(pid) {
            Some(process) => process.enter(alloc, number, text),
            None => Ok(()),
        }
    }

    /// The rest of the latest call of a process.
    fn resume(&mut self, pid: u32, rest: &str) -> Result<(), AllocError> {
        match self.processes.get_mut(pid) {
            Some(process) => process.resume(rest),
            None => Ok(()),
        }
    }

    fn add(&mut self, alloc: Global, line: &str, follow: bool) -> Result<(), AllocError> {
        let (pid, text) = divide(line, follow);
        if text.starts_with("<... ") {
            return match text.split_once(" resumed>") {
                Some((_, rest)) => self.resume(pid, rest),
                None => Ok(()),
            };
        }
        let Some((name, _)) = text.split_once('(') else {
            return Ok(());
        };
        let text = text.strip_suffix(" <unfinished ...>").unwrap_or(text);
        match number_of(name) {
            Some(number) => self.enter(alloc, pid, number, text),
            None => Ok(()),
        }
    }

    /// Those of a run with this trace and this log, made in these functions.
    pub fn of(
        alloc: Global,
        trace: &str,
        follow: bool,
        log: &[Item],
        callers: Callers,
    ) -> Result<Self, AllocError> {
        let mut calls = TracedCalls {
            processes: Map::new(alloc),
            ends: ends_of(alloc, log)?,
            callers,
        };
        for line in trace.lines() {
            calls.add(alloc, line, follow)?;
        }
        Ok(calls)
    }

    /// What the trace shows of the nth call of a process with a number.
    pub fn text_of(&self, pid: u32, number: u64, n: u64) -> Option<&str> {
        let texts = self.processes.get(pid)?.texts(number)?;
        let text = texts.get(usize::try_from(n.checked_sub(1)?).ok()?)?;
        Some(text.as_str())
    }

    /// The function in which the nth call of a process with a number was made, if it is known.
    pub fn function_of(&self, pid: u32, number: u64, n: u64) -> Option<&str> {
        self.callers.function_of(pid, number, n)
    }

    /// What the trace shows of the call whose end stands here in the log.
    pub fn text_at(&self, log: &[Item], at: usize) -> Option<&str> {
        let Item::Done { pid, call, .. } = log.get(at)? else {
            return None;
        };
        self.text_of(*pid, call.number, *self.ends.get(at)?)
    }
}
