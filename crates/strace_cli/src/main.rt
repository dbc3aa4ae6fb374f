//! strace(1) for modelled guests: prints the system calls of a program, and makes those fail that the user names.
#![tactic(auto)]

use std::process::ExitCode;
use trace_command::{COMMAND_LINE, command};

fn main(rt: HostRuntime) -> ExitCode {
    let mut input = rt.stdin();
    let mut err = rt.stderr();
    let status = match front_end::begin(&rt) {
        Ok(begun) => command(&rt, begun.words.as_slice(), &mut input, rt.stdout(), err),
        Err(fault) => COMMAND_LINE.tell(fault, &mut err),
    };
    ExitCode::from(status)
}
