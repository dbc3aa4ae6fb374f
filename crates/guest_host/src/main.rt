//! The host of guests: runs a program on the plain kernel, serves a tracer, or assembles a program.
#![tactic(auto)]

use guest_commands::{COMMAND_LINE, command};
use std::process::ExitCode;

fn main(rt: HostRuntime) -> ExitCode {
    let mut err = rt.stderr();
    let status = match front_end::begin(&rt) {
        Ok(begun) => command(
            rt,
            rt.process(),
            begun.words.as_slice(),
            rt.stdin(),
            rt.stdout(),
            err,
        ),
        Err(fault) => COMMAND_LINE.tell(fault, &mut err),
    };
    ExitCode::from(status)
}
