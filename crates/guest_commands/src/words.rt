//! What the command line is.

use front_end::{CommandLine, CommandRow, Operands, Tool, WordRow};

/// What is written of faulty listings, kind by kind.
const KINDS: &str =
    "A listing that can't be assembled is reported by its first faulty line, as 'asm: line L kind K':
  1  no mnemonic or directive has this name
  2  the operands aren't those of the mnemonic
  3  a number, or the distance to a label, doesn't fit
  4  no line has this label
  5  the label stands on an earlier line, or twice on this one
  6  the program would fill more than 65536 bytes
  7  memory ran out";

/// What is written of runs.
const NOTES: &str = "The log has a line for each step of a call:
  E pid number a0 .. a5    a call is entered
  D pid result             it is done; r at the end says that its result was replaced
  S pid signal             a signal is taken
  T pid signal             the signal has stopped the process
  X pid word               a process ends, with its wait word

Faults are one line on standard error, with the numbers that strace_cli --help lists; at a terminal and with --explain
another explains it.

The status is the program's, or 128 and the signal that ended it; 2 for words, files or a boot at fault, 3 for an
output or for memory, 4 where the turns ended with a process alive.

Example: make the second write fail
  guest_host asm guests/rows/three_writes.s three_writes
  guest_host plain -e fault=write:error=EIO:when=2 --file /p=three_writes -- /p </dev/null";

/// What is written of drills, and of conversations that can't go on, kind by kind.
const SERVE_NOTES: &str = "A drill spoils the reply of one number; Boot's is the first:
  cut:N:BYTES        writes the first BYTES of reply N, and ends with status 1
  renumber:N:NUMBER  gives reply N this number
  replace:N:HEX      writes these bytes for reply N

The status is 0 at the end of input. A conversation that can't go on is reported in one line, as
'guest_host: serve fault N: TEXT', with the status 1:
  1  the requests could not be read
  2  a reply could not be written
  3  a frame is malformed, or a reply too long for one
  4  a frame came out of order
  5  memory ran out";

/// That of `guest_host`.
pub const COMMAND_LINE: CommandLine = CommandLine {
    name: "guest_host",
    row: CommandRow {
        name: "guest_host",
        about: "The host of modelled RV64I guests",
        notes: None,
        takes: Operands::Words(&[]),
    },
    commands: &[
        CommandRow {
            name: "plain",
            about: "Runs a program on the untraced kernel, and prints its calls on standard error",
            notes: Some(NOTES),
            takes: Operands::Program(Tool::Plain),
        },
        CommandRow {
            name: "serve",
            about: "Answers a tracer's requests, which are frames on standard input, by frames on standard output",
            notes: Some(SERVE_NOTES),
            takes: Operands::Words(&[WordRow {
                id: "drill",
                name: "DRILL",
                help: "Spoils a reply, to try a tracer by",
                is_list: true,
            }]),
        },
        CommandRow {
            name: "asm",
            about: "Assembles a listing into an ELF file",
            notes: Some(KINDS),
            takes: Operands::Words(&[
                WordRow {
                    id: "in",
                    name: "IN",
                    help: "The listing",
                    is_list: false,
                },
                WordRow {
                    id: "out",
                    name: "OUT",
                    help: "The file that the program is written to",
                    is_list: false,
                },
            ]),
        },
    ],
    takes_last: false,
};
