//! One turn of a living process, stage by stage.

ghost use Rattle.std.specs.Prelude.{◌≡◌, IfOk, OnOk, OnErr, None, false};
ghost use Rattle.rv_hart.specs.Faults.{signal_number};
ghost use Rattle.std.specs.FinMap as maps;
ghost use Rattle.lx_model.specs.Turn.{joins, chosen, stepped, answered, halts, took, wakes, lives, result_word};
ghost use Rattle.lx_model.specs.Machine.{call_of, with_result};
ghost use Rattle.lx_pcalls.specs.Taking.{takes};
ghost use Rattle.lx_turn.specs.Linux.{linux};
ghost use Rattle.lx_proc.specs.Registers.{regs};
ghost use Rattle.lx_turn.specs.Reactions.{next_of, runs, stepped_by, resumed};
ghost use Rattle.lx_turn.specs.Calls.{does as meaning};
ghost use Rattle.lx_turn.specs.Injection.{choice_of_call};
ghost use Rattle.lx_turn.specs.Turned.{turned, turned_by, goes_on, EndsSame};
ghost use Rattle.lx_model.specs.declared.stage.Stage.TheVariants as stages;
ghost use Rattle.lx_proc.specs.declared.state.Shared.{Shared};

use crate::calls::does;
use crate::injection::Injection;
use crate::signals;
use lx_abi::{Call, Cause, Choice, Item, Signal};
use lx_model::{PtraceEvent, Stage};
use lx_pcalls::{Reacted, is_continued, settle, stop, take, wake};
use lx_proc::{CallReply, Shared, UserState, a0, call, make_again, return_from_call};
use rv_hart::{FaultKind, Step, step};
use std::alloc::{AllocError, Global};
use std::ops::ControlFlow;

/// How a turn of a living process goes: the process goes on, and this was done beside, or it ends with this wait word,
/// and what is shared is unchanged.
pub type Course = ControlFlow<u32, PtraceEvent<Box<UserState>>>;

/// The signal of a fault.
fn fault_signal(kind: FaultKind) -> Signal
    ensures { result.number ≡ signal_number kind }
{
    match kind {
        FaultKind::Illegal => Signal::ILL,
        FaultKind::Breakpoint => Signal::TRAP,
        FaultKind::Misaligned => Signal::BUS,
        FaultKind::Unmapped | FaultKind::Forbidden => Signal::SEGV,
    }
}

/// One instruction runs, or can't.
fn step_on(
    pid: u32,
    user: &mut UserState,
    stage: &mut Stage,
    item: &mut Option<Item>,
) -> Result<(), AllocError>
    requires in_run { stage.old ≡ stages.Run }
    requires nothing { item.old ≡ None }
    ensures { OnOk result ((s : Shared) → turned (stepped linux s pid user.old (stepped_by user.old))
        ≡ goes_on s user.new stage.new item.new) }
{
    match step(&mut user.hart, &mut user.memory)? {
        Step::Ran => Ok(()),
        Step::Call => {
            let call = call(user);
            *stage = Stage::Entered { joined: None };
            *item = Some(Item::Enter { pid, call });
            Ok(())
        }
        Step::Fault { kind, address } => {
            let cause = Cause::Fault {
                code: kind.code(),
                address,
            };
            let signal = fault_signal(kind);
            *stage = Stage::Faulting { signal, cause };
            Ok(())
        }
    }
}

/// An interrupted call is made again, or one instruction runs.
fn resume(
    pid: u32,
    user: &mut UserState,
    stage: &mut Stage,
    item: &mut Option<Item>,
) -> Result<(), AllocError>
    requires in_run { stage.old ≡ stages.Run }
    requires nothing { item.old ≡ None }
    ensures { OnOk result ((s : Shared) → turned (stepped linux s pid user.old (resumed user.old user.old.interrupted))
        ≡ goes_on s user.new stage.new item.new) }
{
    match user.interrupted {
        Some(at) => {
            make_again(user, at);
            Ok(())
        }
        None => step_on(pid, user, stage, item),
    }
}

/// A turn in Run.
fn run(
    shared: &mut Shared,
    pid: u32,
    user: &mut UserState,
    stage: &mut Stage,
    item: &mut Option<Item>,
) -> Result<(), AllocError>
    requires in_run { stage.old ≡ stages.Run }
    requires nothing { item.old ≡ None }
    ensures turned { OnOk result (turned (stepped linux shared.old pid user.old (runs shared.old pid user.old (next_of
        (maps.get shared.old.entries pid)))) ≡ goes_on shared.new user.new stage.new item.new) }
    ensures console { OnErr result (shared.new.console ≡ shared.old.console) }
{
    match signals::next(shared, pid) {
        Some(signal) => {
            let cause = signals::take(shared, pid, signal);
            *stage = Stage::Taken { signal, cause };
            *item = Some(Item::Taken { pid, signal, cause });
            Ok(())
        }
        None => resume(pid, user, stage, item),
    }
}

/// The signals that are joined to a call are made pending.
fn join(shared: &mut Shared, pid: u32, signal: Option<Signal>)
    ensures { shared.new ≡ joins linux shared.old pid signal }
{
    match signal {
        None => {}
        Some(signal) => signals::join(shared, pid, signal),
    }
}

/// What is done about a call.
fn chosen_stage(call: Call, choice: Choice) -> Stage
    ensures { result ≡ chosen call (result_word choice) }
{
    match choice.result {
        None => Stage::Doing { call },
        Some(value) => Stage::Replaced {
            call,
            result: value.cast_unsigned(),
        },
    }
}

/// The call was done with this result, and this beside it.
fn acted(stage: &mut Stage, call: Call, value: u64, done: PtraceEvent<Box<UserState>>) -> Course
    ensures stage { stage.new ≡ stages.Acted call value false }
    ensures course { result ≡ ControlFlow.Continue done }
{
    *stage = Stage::Acted {
        call,
        result: value,
        replaced: false,
    };
    ControlFlow::Continue(done)
}

/// The result stands in its place, and the call was done.
fn return_with(
    user: &mut UserState,
    stage: &mut Stage,
    call: Call,
    value: u64,
    done: PtraceEvent<Box<UserState>>,
) -> Course
    ensures user { user.new ≡ with_result linux user.old value }
    ensures stage { stage.new ≡ stages.Acted call value false }
    ensures course { result ≡ ControlFlow.Continue done }
{
    return_from_call(user, value);
    acted(stage, call, value, done)
}

/// A call is done, if it can be. Apart, since a function pays at its entry for the size of its locals.
#[inline(never)]
fn do_call(
    alloc: Global,
    shared: &mut Shared,
    child: u32,
    pid: u32,
    user: &mut UserState,
    stage: &mut Stage,
    call: Call,
) -> Result<Course, AllocError>
    requires { stage.old ≡ stages.Doing call }
    ensures turned { IfOk result (λ w. turned (answered linux shared.old child pid user.old call
        (meaning shared.old child pid call user.old)) ≡ turned_by w shared.new user.new pid
        (stages.Doing call) stage.new None) }
    ensures ends { IfOk result (λ w. EndsSame w shared.old shared.new) }
    ensures console { OnErr result (shared.new.console ≡ shared.old.console) }
{
    match does(alloc, shared, child, pid, &call, user)? {
        CallReply::Refused(error) => Ok(return_with(
            user,
            stage,
            call,
            error.word(),
            PtraceEvent::Plain,
        )),
        CallReply::Returned(result) => Ok(return_with(
            user,
            stage,
            call,
            result,
            PtraceEvent::Plain,
        )),
        CallReply::Jumped => Ok(acted(stage, call, a0(user), PtraceEvent::Plain)),
        CallReply::Execed => Ok(acted(stage, call, a0(user), PtraceEvent::Execed)),
        CallReply::Bore(newborn) => {
            Ok(return_with(
                user,
                stage,
                call,
                u64::from(child),
                PtraceEvent::Forked(newborn),
            ))
        }
        CallReply::Blocked => Ok(ControlFlow::Continue(PtraceEvent::Plain)),
        CallReply::Ended(word) => Ok(ControlFlow::Break(word)),
    }
}

/// A taken signal stops its process, unless SIGCONT was sent since.
fn halt(
    shared: &mut Shared,
    pid: u32,
    _user: &UserState,
    stage: &mut Stage,
    item: &mut Option<Item>,
    signal: Signal,
) -> Course
    requires { item.old ≡ None }
    ensures turned { turned (halts (linux.continued shared.old pid) linux shared.old pid _user.now signal)
        ≡ goes_on shared.new _user.now stage.new item.new }
    ensures course { result ≡ ControlFlow.Continue PtraceEvent.Plain }
{
    if is_continued(shared, pid) {
        settle(shared, pid);
        *stage = Stage::Run;
    } else {
        stop(shared, pid, signal);
        *stage = Stage::Stopped { signal };
        *item = Some(Item::Stopped { pid, signal });
    }
    ControlFlow::Continue(PtraceEvent::Plain)
}

/// SIGCONT wakes a stopped process; else it stays so.
fn wake_up(shared: &mut Shared, pid: u32, _user: &UserState, stage: &mut Stage, signal: Signal)
    requires { stage.old ≡ stages.Stopped signal }
    ensures turned { turned (wakes (linux.continued shared.old pid) linux shared.old pid _user.now signal)
        ≡ goes_on shared.new _user.now stage.new None }
{
    if is_continued(shared, pid) {
        wake(shared, pid);
        *stage = Stage::Woken;
    }
}

/// A taken signal does what its action says: its process goes on, stops or ends.
#[inline(never)]
fn react(
    shared: &mut Shared,
    pid: u32,
    user: &mut UserState,
    stage: &mut Stage,
    item: &mut Option<Item>,
    signal: Signal,
    cause: Cause,
) -> Result<Course, AllocError>
    requires { item.old ≡ None }
    ensures turned { IfOk result (λ w. turned (took linux shared.old pid user.old signal cause
        (takes shared.old pid user.old signal cause)) ≡ turned_by w shared.new user.new pid
        (stages.Taken signal cause) stage.new item.new) }
    ensures ends { IfOk result (λ w. EndsSame w shared.old shared.new) }
    ensures console { OnErr result (shared.new.console ≡ shared.old.console) }
{
    match take(shared, pid, user, signal, cause)? {
        Reacted::Passed => {
            settle(shared, pid);
            *stage = Stage::Run;
            Ok(ControlFlow::Continue(PtraceEvent::Plain))
        }
        Reacted::Stopped => Ok(halt(shared, pid, user, stage, item, signal)),
        Reacted::Killed(word) => Ok(ControlFlow::Break(word)),
    }
}

/// One turn of a living process without a pending SIGKILL, and what it logs.
pub fn go(
    alloc: Global,
    shared: &mut Shared,
    injection: &Injection,
    child: u32,
    pid: u32,
    user: &mut UserState,
    stage: &mut Stage,
    item: &mut Option<Item>,
) -> Result<Course, AllocError>
    requires { item.old ≡ None }
    ensures turned { IfOk result (λ w. turned (lives linux
        (choice_of_call injection.now pid user.old) shared.old child pid user.old stage.old)
        ≡ turned_by w shared.new user.new pid stage.old stage.new item.new) }
    ensures ends { IfOk result (λ w. EndsSame w shared.old shared.new) }
    ensures console { OnErr result (shared.new.console ≡ shared.old.console) }
{
    match *stage {
        Stage::Born | Stage::Finished | Stage::Woken => {
            *stage = Stage::Run;
            Ok(ControlFlow::Continue(PtraceEvent::Plain))
        }
        Stage::Dropped | Stage::Released => {
            settle(shared, pid);
            *stage = Stage::Run;
            Ok(ControlFlow::Continue(PtraceEvent::Plain))
        }
        Stage::Run => {
            run(shared, pid, user, stage, item)?;
            Ok(ControlFlow::Continue(PtraceEvent::Plain))
        }
        Stage::Faulting { signal, cause } => {
            *stage = Stage::Taken { signal, cause };
            *item = Some(Item::Taken { pid, signal, cause });
            Ok(ControlFlow::Continue(PtraceEvent::Plain))
        }
        Stage::Entered { joined } => {
            let call = call(user);
            let choice = injection.choice(pid, call.number);
            join(shared, pid, joined);
            join(shared, pid, choice.signal);
            *stage = chosen_stage(call, choice);
            Ok(ControlFlow::Continue(PtraceEvent::Plain))
        }
        Stage::Doing { call } => do_call(alloc, shared, child, pid, user, stage, call),
        Stage::Replaced { call, result } => {
            return_from_call(user, result);
            *stage = Stage::Acted {
                call,
                result,
                replaced: true,
            };
            Ok(ControlFlow::Continue(PtraceEvent::Plain))
        }
        Stage::Acted {
            call,
            result,
            replaced,
        } => {
            *stage = Stage::Finished;
            *item = Some(Item::Done {
                pid,
                call,
                result,
                replaced,
            });
            Ok(ControlFlow::Continue(PtraceEvent::Plain))
        }
        Stage::Taken { signal, cause } => react(shared, pid, user, stage, item, signal, cause),
        Stage::Stopped { signal } => {
            wake_up(shared, pid, user, stage, signal);
            Ok(ControlFlow::Continue(PtraceEvent::Plain))
        }
    }
}
