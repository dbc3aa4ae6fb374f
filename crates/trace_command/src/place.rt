//! The place that the trace goes to.

ghost use Rattle.std.specs.Prelude.{IfErr};
ghost use Rattle.trace_command.specs.Faults.{IsUnopened};

use crate::fault::unopened;
use clap::ArgMatches;
use front_end::{Fault, Opened, Shown, create_file};
use std::alloc::Global;
use std::rt::Files;

/// Where the trace goes.
#[derive(Clone, Copy, Debug, PartialEq, Eq)]
pub enum Place<'a> {
    Error,
    Output,
    File(&'a str),
}

impl<'a> Place<'a> {
    ghost use Rattle.std.specs.Prelude.{codes};
    ghost use Rattle.trace_command.specs.Faults.{IsUnwritable};
    ghost use Rattle.trace_command.specs.Tracing.{IsPlace, value_of};

    /// The place that `-o` names. A standard stream is written without opening it again.
    pub fn of(matches: &ArgMatches<'a>) -> Self
        ensures { IsPlace (value_of matches.now (codes "output")) result }
    {
        match matches.get_str("output") {
            None | Some("/dev/stderr" | "/dev/fd/2") => Place::Error,
            Some("/dev/stdout" | "/dev/fd/1") => Place::Output,
            Some(path) => Place::File(path),
        }
    }

    /// The fault of a trace that can't be written here, if there is memory to say where.
    pub fn fault(self, alloc: Global) -> Fault
        ensures { IsUnwritable result }
    {
        let text = match self {
            Place::Error => format!(in alloc; "the trace could not be written to standard error"),
            Place::Output => format!(in alloc; "the trace could not be written to standard output"),
            Place::File(path) => {
                format!(in alloc; "the trace could not be written to {}", Shown(path))
            }
        };
        Fault::output(text)
    }
}

/// Makes a file for the trace anew. A stream is written where it stands, and a device is appended to.
pub fn create<R: Files + AllocGlobal>(rt: &R, path: &str) -> Result<Opened<R::File>, Fault>
    ensures { IfErr result (λ fault. IsUnopened fault) }
{
    match create_file(rt, path) {
        Ok(file) => Ok(file),
        Err(error) => {
            let what = format!(in rt.alloc(); "-o {}", Shown(path));
            Err(unopened(rt.alloc(), what, error))
        }
    }
}
