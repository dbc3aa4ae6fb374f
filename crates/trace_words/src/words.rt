//! What the command line is.

use front_end::{CommandLine, CommandRow, Operands, Tool};

const NOTES: &str = "Expressions, after -e:
  trace=SET (or t=SET, or SET alone)   which calls are shown; the last one counts
  inject=SET:PARTS                     what is done to calls, also to those that aren't shown
  fault=SET[:PARTS]                    makes calls fail, with ENOSYS where no error is named
  SET    names joined by commas, as write or ?name; %file, %desc, %process, %signal, %memory; /REGEX; all; none;
         a ! in front takes all others
  PARTS  joined by colons: error=E (a name, or 1 to 4095), retval=V, signal=S, when=W; fault= takes error and when
  W      FIRST (that occurrence alone), FIRST+ (and all later ones) or FIRST+STEP; FIRST..LAST or FIRST..LAST+STEP;
         the first execve counts

Faults are one line on standard error; at a terminal and with --explain others explain it.
strace: expression fault N (status 2)
  1  no call has this name
  2  no class of calls has this name
  3  no error has this name
  4  no signal has this name
  5  a number is malformed or out of range
  6  the occurrences after when= are malformed or out of range
  7  error= and retval= exclude each other
  8  none of error=, retval= and signal= is given
  9  the regular expression is malformed
  11 a part isn't one of this expression's
strace: boot fault N: TEXT (status 2)
  1  a path of --file is not plain and absolute, or lies under another file
  2  two files have the same path
  3  no program is named
  4  a file, or the words and the environment, are too large
  6  how many processes there may be, or the last pid, is out of its range
strace: host fault N (status 3)
  1  the host did not start, has ended, or was silent for too long
  2  its replies could not be read
  3  a request could not be written to it
  4  its reply is malformed
  5  its reply answers another request
  6  its reply is of the wrong kind
  8  there were too many requests
  9  a thread did not start
  10 the run isn't the one that the journal of its threads tells
strace: output fault, strace: out of memory (status 3)
strace: out of turns (status 4): all processes wait or are stopped, or the limit was reached

Example: make the second write fail, and watch
  guest_host asm guests/rows/three_writes.s three_writes
  strace_cli -e trace=write -e fault=write:error=EIO:when=2 --file /p=three_writes -- /p </dev/null";

/// That of `strace_cli`, whose messages are those of strace(1).
pub const COMMAND_LINE: CommandLine = CommandLine {
    name: "strace",
    row: CommandRow {
        name: "strace_cli",
        about: "Traces the system calls of a modelled RV64I guest, and makes the calls you name fail",
        notes: Some(NOTES),
        takes: Operands::Program(Tool::Trace),
    },
    commands: &[],
    takes_last: true,
};
