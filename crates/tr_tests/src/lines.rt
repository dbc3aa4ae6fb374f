//! Lines of traces that no tracee makes, worked out by hand: a stop and a fault while a call's line is open. Those of
//! tracees stand in guests/conversations and guests/rows.

use containers::Bytes;
use lx_abi::{Info, Signal};
use std::alloc::{AllocError, Global};
use std::test::Fail;
use tr_line::{Layout, Printer};

/// A part of the trace of process 1.
#[derive(Clone, Copy)]
enum Part {
    /// Call number and text.
    Enter(u64, &'static str),
    /// SIGSEGV at an address.
    Fault(u64),
    /// By SIGTTOU.
    Stopped,
    /// Wait word.
    Exit(u32),
}

fn printed(printer: &mut Printer, part: Part) -> Result<Bytes, AllocError> {
    match part {
        Part::Enter(number, text) => printer.enter(1, number, text),
        Part::Fault(address) => printer.signal(
            1,
            &Info {
                signal: 11,
                code: 1,
                pid: 0,
                status: 0,
                address,
            },
        ),
        Part::Stopped => printer.stopped(1, Signal::from_number(22).unwrap_or(Signal::KILL)),
        Part::Exit(word) => printer.end(1, word),
    }
}

fn print_each(printer: &mut Printer, parts: &[Part], out: &mut Bytes) -> Result<(), AllocError> {
    for part in parts {
        let bytes = printed(printer, *part)?;
        out.extend(bytes.as_slice())?;
    }
    Ok(())
}

fn trace(alloc: Global, parts: &[Part]) -> Result<Bytes, AllocError> {
    let layout = Layout {
        follow: false,
        width: 40,
    };
    let mut printer = Printer::new(alloc, layout);
    let mut out = Bytes::new(alloc);
    let printed = print_each(&mut printer, parts, &mut out);
    drop(printer);
    printed?;
    Ok(out)
}

/// The parts of a trace, and the trace.
type Row = (&'static [Part], &'static str);

const OPEN_LINES: &[Row] = &[
    (
        &[Part::Enter(63, "read(3, "), Part::Stopped],
        "\
read(3,  <unfinished ...>
--- stopped by SIGTTOU ---
",
    ),
    (
        &[
            Part::Enter(94, "exit_group(127"),
            Part::Fault(0x10),
            Part::Exit(11),
        ],
        "\
exit_group(127 <unfinished ...>
--- SIGSEGV {si_signo=SIGSEGV, si_code=SEGV_MAPERR, si_addr=0x10} ---
<... exit_group resumed>)               = ?
+++ killed by SIGSEGV +++
",
    ),
];

#[test]
fn open_lines(rt: HostRuntime) -> Result<(), Fail> {
    for &(parts, text) in OPEN_LINES {
        assert_eq!(rt; trace(rt.alloc(), parts)?.as_slice(), text.as_bytes());
    }
    Ok(())
}
