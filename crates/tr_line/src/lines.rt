//! The lines of a trace: what each part writes.

ghost use Rattle.std.specs.Prelude.{◌≡◌, ◌+◌, ◌++◌, IfOk, OnOk, length, decimal};
ghost use Rattle.tr_values.specs.Calls.{name_text};
ghost use Rattle.tr_line.specs.Lines as lines;
ghost use Rattle.tr_line.specs.Printing as spec;

use crate::ends::exit_line;
use crate::layout::{Layout, Open};
use crate::results::result_text;
use crate::signals::{signal_line, stop_line};
use crate::text::Text;
use lx_abi::Info;
use lx_abi::calls::call_name;
use std::alloc::AllocError;

/// Writes a number, and says how long it is.
fn counted(out: &mut Text, n: u64) -> Result<usize, AllocError>
    ensures text { OnOk result (out.new ≡ out.old ++ decimal n) }
    ensures count { IfOk result (λ k. k ≡ length (decimal n)) }
{
    let before = out.len();
    out.decimal(n)?;
    Ok(out.len() - before)
}

#[tactic(auto, unfolding(crate::specs::Lines::pid_text))]
fn pid_text(out: &mut Text, layout: Layout, pid: u32) -> Result<(), AllocError>
    ensures { OnOk result (out.new ≡ out.old ++ lines.pid_text layout pid) }
{
    if !layout.follow {
        return Ok(());
    }
    let digits = counted(out, u64::from(pid))?;
    out.spaces(5usize.saturating_sub(digits))?;
    out.put(" ")
}

/// An open line is left before another begins.
fn leaves(out: &mut Text, line: Option<Open>) -> Result<(), AllocError>
    ensures { OnOk result (out.new ≡ out.old ++ spec.leaves line) }
{
    match line {
        Some(_) => out.put(" <unfinished ...>\n"),
        None => Ok(()),
    }
}

fn unless_own(out: &mut Text, line: Option<Open>, pid: u32) -> Result<(), AllocError>
    ensures { OnOk result (out.new ≡ out.old ++ spec.unless_own pid line) }
{
    match line {
        Some(open) if open.pid == pid => Ok(()),
        Some(_) => out.put(" <unfinished ...>\n"),
        None => Ok(()),
    }
}

/// One space, and more up to the width, on a line of these lengths.
#[tactic(auto, unfolding(crate::specs::Lines::gap))]
fn gap(
    out: &mut Text,
    layout: Layout,
    column: usize,
    text: usize,
    close: usize,
) -> Result<(), AllocError>
    ensures { OnOk result (out.new ≡ out.old ++ lines.gap layout (column + (text + close))) }
{
    let room = (layout.width as usize).saturating_sub(column);
    out.spaces(room.saturating_sub(text).saturating_sub(close).max(1))
}

/// Text and its close, up to the result.
#[tactic(auto, unfolding(crate::specs::Lines::closed))]
fn close(
    out: &mut Text,
    layout: Layout,
    column: usize,
    text: &str,
    mark: &str,
) -> Result<(), AllocError>
    ensures { OnOk result (out.new ≡ out.old ++ lines.closed layout column text.now mark.now) }
{
    out.put(text)?;
    out.put(mark)?;
    gap(out, layout, column, text.len(), mark.len())?;
    out.put("= ")
}

#[tactic(auto, unfolding(crate::specs::Lines::resumed))]
fn resumed(out: &mut Text, number: u64) -> Result<(), AllocError>
    ensures { OnOk result (out.new ≡ out.old ++ lines.resumed number) }
{
    out.put("<... ")?;
    name(out, number)?;
    out.put(" resumed>")
}

fn name(out: &mut Text, number: u64) -> Result<(), AllocError>
    ensures { OnOk result (out.new ≡ out.old ++ name_text number) }
{
    match call_name(number) {
        Some(name) => out.put(name),
        None => {
            out.put("syscall_")?;
            out.hex(number)
        }
    }
}

/// A new line, on which a call is resumed, and how long it is.
fn resume(out: &mut Text, layout: Layout, pid: u32, number: u64) -> Result<usize, AllocError>
    ensures text { OnOk result (out.new ≡ out.old ++ (lines.pid_text layout pid ++ lines.resumed number)) }
    ensures column { IfOk result (λ k. k ≡ length (lines.pid_text layout pid ++ lines.resumed number)) }
{
    let before = out.len();
    pid_text(out, layout, pid)?;
    resumed(out, number)?;
    Ok(out.len() - before)
}

/// The line of the entry, or a new one, and how long it is.
fn goes_on(
    out: &mut Text,
    layout: Layout,
    line: Option<Open>,
    pid: u32,
    number: u64,
) -> Result<usize, AllocError>
    ensures text { OnOk result (out.new ≡ out.old ++ (spec.goes_on layout pid number line).added) }
    ensures column { IfOk result (λ k. k ≡ (spec.goes_on layout pid number line).column) }
{
    match line {
        Some(open) if open.pid == pid => Ok(open.column),
        _ => resume(out, layout, pid, number),
    }
}

/// Writes an entry at the beginning of a line, and says how long the line is.
fn entry(out: &mut Text, layout: Layout, pid: u32, text: &str) -> Result<usize, AllocError>
    ensures text { OnOk result (out.new ≡ out.old ++ (lines.pid_text layout pid ++ text.now)) }
    ensures column { IfOk result (λ k. k ≡ length (lines.pid_text layout pid ++ text.now)) }
{
    let before = out.len();
    pid_text(out, layout, pid)?;
    out.put(text)?;
    Ok(out.len() - before)
}

#[tactic(auto, unfolding(crate::specs::Printing::enter_text))]
pub(crate) fn enter_text(
    out: &mut Text,
    layout: Layout,
    line: Option<Open>,
    pid: u32,
    text: &str,
) -> Result<usize, AllocError>
    ensures text { OnOk result (out.new ≡ out.old ++ spec.enter_text layout line pid text.now) }
    ensures column { IfOk result (λ k. k ≡ length (lines.pid_text layout pid ++ text.now)) }
{
    leaves(out, line)?;
    entry(out, layout, pid, text)
}

#[tactic(auto, unfolding(crate::specs::Printing::done_text, crate::specs::Lines::finish))]
pub(crate) fn done_text(
    out: &mut Text,
    layout: Layout,
    line: Option<Open>,
    pid: u32,
    number: u64,
    text: &str,
    value: u64,
    replaced: bool,
) -> Result<(), AllocError>
    ensures { OnOk result (out.new
        ≡ out.old ++ spec.done_text layout line pid number value replaced text.now) }
{
    unless_own(out, line, pid)?;
    let column = goes_on(out, layout, line, pid, number)?;
    close(out, layout, column, text, ")")?;
    result_text(out, number, value, replaced)?;
    out.put("\n")
}

#[tactic(auto, unfolding(crate::specs::Printing::signal_text))]
pub(crate) fn signal_text(
    out: &mut Text,
    layout: Layout,
    line: Option<Open>,
    pid: u32,
    info: &Info,
) -> Result<(), AllocError>
    ensures { OnOk result (out.new ≡ out.old ++ spec.signal_text layout line pid info.now) }
{
    leaves(out, line)?;
    pid_text(out, layout, pid)?;
    signal_line(out, info)
}

#[tactic(auto, unfolding(crate::specs::Printing::stopped_text))]
pub(crate) fn stopped_text(
    out: &mut Text,
    layout: Layout,
    line: Option<Open>,
    pid: u32,
    signal: u64,
) -> Result<(), AllocError>
    ensures { OnOk result (out.new ≡ out.old ++ spec.stopped_text layout line pid signal) }
{
    leaves(out, line)?;
    pid_text(out, layout, pid)?;
    stop_line(out, signal)
}

fn cut_off(word: u32) -> &'static str
    ensures { result.now ≡ lines.cut_off word }
{
    if word == 9 { " <unfinished ...>)" } else { ")" }
}

#[tactic(auto, unfolding(crate::specs::Lines::cut_text))]
fn cut_text(
    out: &mut Text,
    layout: Layout,
    line: Option<Open>,
    pid: u32,
    number: u64,
    word: u32,
) -> Result<(), AllocError>
    ensures { OnOk result (out.new
        ≡ out.old ++ lines.cut_text layout (spec.goes_on layout pid number line) word) }
{
    let column = goes_on(out, layout, line, pid, number)?;
    close(out, layout, column, "", cut_off(word))?;
    out.put("?\n")
}

/// What a process's end shows of the call that it cuts off.
fn cuts(
    out: &mut Text,
    layout: Layout,
    line: Option<Open>,
    call: Option<u64>,
    pid: u32,
    word: u32,
) -> Result<(), AllocError>
    ensures { OnOk result (out.new ≡ out.old ++ spec.cuts layout pid word line call) }
{
    match call {
        Some(number) => cut_text(out, layout, line, pid, number, word),
        None => Ok(()),
    }
}

#[tactic(auto, unfolding(crate::specs::Printing::end_text))]
pub(crate) fn end_text(
    out: &mut Text,
    layout: Layout,
    line: Option<Open>,
    call: Option<u64>,
    pid: u32,
    word: u32,
) -> Result<(), AllocError>
    ensures { OnOk result (out.new ≡ out.old ++ spec.end_text layout line call pid word) }
{
    unless_own(out, line, pid)?;
    cuts(out, layout, line, call, pid, word)?;
    pid_text(out, layout, pid)?;
    exit_line(out, word)
}
