//! The printer: the bytes of each part of a trace, one after the other.

ghost use Rattle.std.specs.Prelude.{◌≡◌, IfOk, OnOk, OnErr, is_some};
ghost use Rattle.std.specs.FinMap as maps;
ghost use Rattle.tr_line.specs.Printing as spec;

use crate::layout::{Layout, Open};
use crate::lines::{done_text, end_text, enter_text, signal_text, stopped_text};
use crate::open_calls::OpenCalls;
use crate::text::Text;
use containers::Bytes;
use lx_abi::{Info, Signal};
use std::alloc::{AllocError, Global};
use std::marker::Model;

/// Room for what stands before the text of an entry.
const MARKS: usize = 32;

/// Room for most lines, beside the text of a call.
const LINE: usize = 96;

/// Prints a trace, part by part.
#[derive(Drop)]
pub struct Printer {
    alloc: Global,
    layout: Layout,
    line: Option<Open>,
    /// The number of the open call of each process that has one.
    calls: OpenCalls,
}

impl Model for Printer {
    ghost use Rattle.std.specs.Coded.{codes};
    ghost use Rattle.std.specs.FinMap as maps;
    ghost use Rattle.tr_line.specs.Printing.{Printing};

    ghost Value = { Printing };

    ghost coded = { Prim.hlevel (codes, maps.code) };

    ghost view = { λ p. record { layout = p.layout; line = p.line; calls = p.calls } };
}

impl Printer {
    pub fn new(alloc: Global, layout: Layout) -> Printer
        ensures { result ≡ spec.new_printing layout }
    {
        Printer {
            alloc,
            layout,
            line: None,
            calls: OpenCalls::new(alloc),
        }
    }

    /// The entry text of a call.
    pub fn enter(&mut self, pid: u32, number: u64, text: &str) -> Result<Bytes, AllocError>
        ensures bytes { IfOk result (λ b. b
            ≡ spec.enter_text self.old.layout self.old.line pid text.now) }
        ensures ok { OnOk result (self.new ≡ spec.entered self.old pid number text.now) }
        ensures err { OnErr result (self.new ≡ self.old) }
    {
        let mut out = Text::with_room(self.alloc, text.len().saturating_add(MARKS))?;
        let column = enter_text(&mut out, self.layout, self.line, pid, text)?;
        self.calls.insert(pid, number)?;
        self.line = Some(Open { pid, column });
        Ok(out.into_bytes())
    }

    /// The process has an open call. It is for callers that keep no calls of their own; the tracer does.
    pub fn is_open(&self, pid: u32) -> bool
        ensures { result ≡ is_some (maps.get self.now.calls pid) }
    {
        self.calls.get(pid).is_some()
    }

    /// The number of the call whose line is open.
    pub fn open_call(&self) -> Option<u64>
        ensures { result ≡ spec.open_call self.now }
    {
        match self.line {
            None => None,
            Some(open) => self.calls.get(open.pid),
        }
    }

    /// The rest of the text of this call of the process, and its result.
    pub fn leave(
        &mut self,
        pid: u32,
        number: u64,
        text: &str,
        value: u64,
        replaced: bool,
    ) -> Result<Bytes, AllocError>
        ensures bytes { IfOk result (λ b. b
            ≡ spec.done_text self.old.layout self.old.line pid number value replaced text.now) }
        ensures ok { OnOk result (self.new ≡ spec.closed self.old pid) }
        ensures err { OnErr result (self.new ≡ self.old) }
    {
        let mut out = Text::with_room(self.alloc, text.len().saturating_add(LINE))?;
        done_text(
            &mut out,
            self.layout,
            self.line,
            pid,
            number,
            text,
            value,
            replaced,
        )?;
        self.calls.remove(pid);
        self.line = None;
        Ok(out.into_bytes())
    }

    /// The line of a signal.
    pub fn signal(&mut self, pid: u32, info: &Info) -> Result<Bytes, AllocError>
        ensures bytes { IfOk result (λ b. b
            ≡ spec.signal_text self.old.layout self.old.line pid info.now) }
        ensures ok { OnOk result (self.new ≡ spec.broken self.old) }
        ensures err { OnErr result (self.new ≡ self.old) }
    {
        let mut out = Text::with_room(self.alloc, LINE)?;
        signal_text(&mut out, self.layout, self.line, pid, info)?;
        self.line = None;
        Ok(out.into_bytes())
    }

    /// The line of a group stop by this signal.
    pub fn stopped(&mut self, pid: u32, signal: Signal) -> Result<Bytes, AllocError>
        ensures bytes { IfOk result (λ b. b
            ≡ spec.stopped_text self.old.layout self.old.line pid signal.number) }
        ensures ok { OnOk result (self.new ≡ spec.broken self.old) }
        ensures err { OnErr result (self.new ≡ self.old) }
    {
        let mut out = Text::with_room(self.alloc, LINE)?;
        stopped_text(
            &mut out,
            self.layout,
            self.line,
            pid,
            u64::from(signal.number),
        )?;
        self.line = None;
        Ok(out.into_bytes())
    }

    /// The end of a process, with its open call if it has one.
    pub fn end(&mut self, pid: u32, word: u32) -> Result<Bytes, AllocError>
        ensures bytes { IfOk result (λ b. b
            ≡ spec.end_text self.old.layout self.old.line (maps.get self.old.calls pid) pid word) }
        ensures ok { OnOk result (self.new ≡ spec.closed self.old pid) }
        ensures err { OnErr result (self.new ≡ self.old) }
    {
        let mut out = Text::with_room(self.alloc, LINE)?;
        let call = self.calls.get(pid);
        end_text(&mut out, self.layout, self.line, call, pid, word)?;
        self.calls.remove(pid);
        self.line = None;
        Ok(out.into_bytes())
    }
}
