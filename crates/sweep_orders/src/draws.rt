//! Orders by chance.

ghost use Rattle.std.specs.Prelude.{◌≡◌, ◌<◌, ◌≤◌, ◌-◌, ◌++◌, [], ◌∷◌, length, IfOk, OnOk, IsTrue};
ghost use Rattle.pt_schedule.specs.Untraced.{readiness_of};
ghost use Rattle.plain_run.specs.InRows.{InRow};
ghost use Rattle.sweep_orders.specs.Draws.{chosen, IsNextAbove, AreAble, is_over, IsStep, IsDrawn};

use lx_kernel::{Failed, Kernel};
use pt_schedule::Schedulable;
use rand_core::utils::NextWord;
use rand_pcg::Pcg32;
use std::alloc::{AllocError, Global};

/// One of these processes, by a word of the generator.
fn chosen(pids: &[u32], word: u32) -> u32
    requires { 0 < length pids.now }
    ensures { result ≡ chosen pids.now word }
{
    pids[word as usize % pids.len()]
}

/// The first process above this one that can go on.
fn next_above(kernel: &Kernel, last: u32) -> Option<u32>
    ensures { IsNextAbove kernel.now last result }
{
    let Some(pid) = kernel.next_able(last) else {
        return None;
    };
    if pid > last { Some(pid) } else { None }
}

/// The processes that can go on, in order.
fn able_pids(alloc: Global, kernel: &Kernel) -> Result<Vec<u32>, AllocError>
    ensures { IfOk result (λ pids. AreAble kernel.now 0 pids.items) }
{
    let mut pids = Vec::new(alloc);
    let mut last = 0;
    while let Some(pid) = next_above(kernel, last) {
        pids.push(pid)?;
        last = pid;
    }
    Ok(pids)
}

/// Turns of a process that are made at once, `most` at most: how many.
fn advance(kernel: &mut Kernel, pid: u32, most: u64) -> Result<u64, AllocError>
    requires { 0 < most }
    ensures row { IfOk result (λ n. InRow kernel.old pid (n - 1) kernel.new) }
    ensures some { IfOk result (λ n. 0 < n) }
    ensures within { IfOk result (λ n. n ≤ most) }
{
    let mut item = None;
    match kernel.advance(pid, most, &mut item) {
        Ok(advanced) => Ok(advanced.turns),
        Err(Failed) => Err(AllocError),
    }
}

/// How many turns are made at once: from the end of a call one.
fn most_at_once(finished: bool, left: u64) -> u64
    requires { 0 < left }
    ensures some { 0 < result }
    ensures within { result ≤ left }
    ensures one { IsTrue finished → result ≡ 1 }
{
    if finished { 1 } else { left }
}

/// A step is over, where so many turns are left and the last one of its process began at the end of a call or not.
fn is_over(left: u64, kernel: &Kernel, pid: u32, finished: bool) -> bool
    ensures { result ≡ is_over left kernel.now pid finished }
{
    left == 0 || !(kernel.is_able(pid) && !(finished && !kernel.has_finished(pid)))
}

/// A step of a process; how many turns are left behind it.
fn step(kernel: &mut Kernel, pid: u32, turns: u64) -> Result<u64, AllocError>
    requires { 0 < turns }
    ensures { IfOk result (λ after. IsStep turns kernel.old pid after kernel.new) }
{
    let mut left = turns;
    'turns: loop {
        let finished = kernel.has_finished(pid);
        let made = advance(kernel, pid, most_at_once(finished, left))?;
        left -= made;
        if is_over(left, kernel, pid, finished) {
            return Ok(left);
        }
    }
}

/// The run by an order that is drawn, step by step; whose the steps are.
pub fn draw(
    alloc: Global,
    kernel: &mut Kernel,
    turns: u64,
    chance: &mut Pcg32,
) -> Result<Vec<u32>, AllocError>
    ensures { IfOk result (λ pids. IsDrawn pids.items turns kernel.old chance.old kernel.new) }
{
    let mut pids = Vec::new(alloc);
    let mut left = turns;
    while left > 0 {
        let able = able_pids(alloc, kernel)?;
        if able.is_empty() {
            return Ok(pids);
        }
        let pid = chosen(able.as_slice(), chance.next_word());
        pids.push(pid)?;
        left = step(kernel, pid, left)?;
    }
    Ok(pids)
}
