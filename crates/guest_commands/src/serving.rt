//! Requests on standard input, and their replies on standard output.

ghost use Rattle.guest_commands.specs.Serving.{Answers};

use crate::drills::{Drill, Drilled};
use crate::watched::{Requested, Shared, watch};
use host_serve::{Conversed, ServeFault, serve, serve_streams};
use host_wire::Counted;
use lx_abi::Outcome;
use std::alloc::Global;
use std::io::{BufReader, Read, Write};
use std::os::fd::{AsRawFd, RawFd};
use std::rt::Process;
use std::sync::{Arc, Wait};
use std::thread::{self, Threads};
use std::time::Clock;

/// The status where a tracer is served no longer.
const SERVING: u8 = 1;

/// How a conversation ended with replies that drills spoil.
#[derive(Drop)]
struct ServedByDrills {
    served: Result<Outcome, ServeFault>,
    /// The reply that was to be cut behind its end, and how many bytes it has.
    unfit: Option<(u64, usize)>,
}

/// Serves with replies that drills spoil, until the end of input or a fault.
fn serve_drilled<I: Read, O: Write>(
    alloc: Global,
    drills: Vec<Drill>,
    input: &mut I,
    out: &mut O,
) -> ServedByDrills {
    let mut source = Counted::new(input);
    let mut sink = Drilled::new(alloc, Counted::new(out), drills);
    let served = serve(alloc, &mut source, &mut sink);
    let unfit = sink.unfit();
    drop(source);
    drop(sink);
    ServedByDrills { served, unfit }
}

/// How answering ended, and the output behind it, where there was memory to begin.
#[derive(Drop)]
struct Answered<O> {
    ended: Result<(), ServeFault>,
    out: Option<O>,
}

/// Answers the frames on `input` by frames to `out`, until the end of input. Requests that came together are answered
/// by one write.
#[inline(never)]
fn answer<I: Read + Drop, O: Write + Drop>(alloc: Global, input: I, out: O) -> Answered<O>
    ensures { Answers O.contents (I.remaining input) (O.contents out) result.ended result.out }
{
    match serve_streams(alloc, input, out) {
        Ok(conversed) => {
            let ended = conversed.ended();
            let Conversed {
                out,
                served,
                is_out: _,
            } = conversed;
            drop(served);
            Answered {
                ended,
                out: Some(out),
            }
        }
        Err(fault) => Answered {
            ended: Err(fault),
            out: None,
        },
    }
}

/// The same by drills. A host that fails on purpose says nothing of it.
#[inline(never)]
fn drill<I: Read, O: Write, E: Write>(
    alloc: Global,
    drills: Vec<Drill>,
    input: &mut I,
    out: &mut O,
    err: &mut E,
) -> u8 {
    let Ok(mut input) = BufReader::new(alloc, input) else {
        return SERVING;
    };
    let drilled = serve_drilled(alloc, drills, &mut input, out);
    if let Some((reply, size)) = drilled.unfit {
        let _written = writeln!(
            err,
            "guest_host: cut:{reply}:BYTES: the reply has {size} bytes, and fewer are to be written"
        );
    }
    match drilled.served {
        Ok(_) => 0,
        Err(_) => SERVING,
    }
}

/// Serves a tracer in this thread, and gives the exit status. A fault is one line on `err`, and its status the same
/// whether that could be written or not.
fn serve_here<I: Read + Drop, O: Write + Drop, E: Write>(
    alloc: Global,
    drills: Vec<Drill>,
    mut input: I,
    mut out: O,
    err: &mut E,
) -> u8 {
    if !drills.is_empty() {
        return drill(alloc, drills, &mut input, &mut out, err);
    }
    let Answered { ended, out } = answer(alloc, input, out);
    drop(out);
    match ended {
        Ok(()) => 0,
        Err(fault) => {
            let _written = writeln!(err, "guest_host: serve fault {}: {fault}", fault.number());
            SERVING
        }
    }
}

/// Starts the thread that serves; where there is none, serves in this one.
fn start_serving<
    R: Threads + Wait + Copy + Send + 'static,
    I: Read + Send + Drop + 'static,
    O: Write + Send + Drop + 'static,
    E: Write + Send + Drop + 'static,
>(
    rt: R,
    alloc: Global,
    shared: Arc<Shared<I>, Global>,
    drills: Vec<Drill>,
    input: Requested<I, R>,
    out: O,
    mut err: E,
) {
    let serves = move || {
        let status = serve_here(alloc, drills, input, out, &mut err);
        shared.end(&rt, status);
    };
    match thread::spawn(&rt, serves) {
        Ok(handle) => drop(handle),
        Err(refused) => {
            let serves = refused.value;
            serves();
        }
    }
}

/// Starts the thread that looks at the input; where there is none, its end is noticed between requests alone.
fn start_watching<
    R: Threads + Wait + Clock + Copy + Send + 'static,
    I: Read + Send + Drop + 'static,
>(rt: R, process: Process, input: RawFd, shared: Arc<Shared<I>, Global>) {
    if let Ok(handle) = thread::spawn(&rt, move || watch(&rt, process, input, &shared, 0)) {
        drop(handle);
    }
}

/// Says that there is no memory to serve a tracer.
fn failed<E: Write + Drop>(mut err: E) -> u8 {
    let fault = ServeFault::Failed;
    let _written = writeln!(err, "guest_host: serve fault {}: {fault}", fault.number());
    SERVING
}

/// Serves a tracer, and gives the exit status: when the conversation ends, or the tracer is gone, whatever the guest
/// does then.
pub fn run<
    R: Threads + Wait + Clock + AllocGlobal + Copy + Send + 'static,
    I: Read + AsRawFd + Send + Drop + 'static,
    O: Write + Send + Drop + 'static,
    E: Write + Send + Drop + 'static,
>(rt: R, process: Process, drills: Vec<Drill>, input: I, out: O, err: E) -> u8 {
    let alloc = rt.alloc();
    let number = input.as_raw_fd();
    let Ok(shared) = Shared::new(alloc, input) else {
        return failed(err);
    };
    let (Ok(served), Ok(watched), Ok(read)) = (
        Arc::try_clone(&shared),
        Arc::try_clone(&shared),
        Arc::try_clone(&shared),
    ) else {
        return failed(err);
    };
    start_watching(rt, process, number, watched);
    start_serving(
        rt,
        alloc,
        served,
        drills,
        Requested::new(rt, read),
        out,
        err,
    );
    shared.wait(&rt)
}
