//! Makes each call of a modelled guest fail in turn, and tells what came of each failure.
#![tactic(auto)]

use std::process::ExitCode;
use sweep_command::{COMMAND_LINE, command};

fn main(rt: HostRuntime) -> ExitCode {
    let mut input = rt.stdin();
    let mut out = rt.stdout();
    let mut err = rt.stderr();
    let status = match front_end::begin(&rt) {
        Ok(begun) => command(&rt, begun.words.as_slice(), &mut input, &mut out, &mut err),
        Err(fault) => COMMAND_LINE.tell(fault, &mut err),
    };
    ExitCode::from(status)
}
