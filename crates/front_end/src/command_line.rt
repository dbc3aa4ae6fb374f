//! The command line of a program: what its words come to, and what is said where they ask for no run.

ghost use Rattle.std.specs.Prelude.{◌≡◌, ◌⊎◌, IsErr, true};
ghost use Rattle.front_end.specs.CommandLines.{Answers, ComesTo, IsStatusWithout, Prints, Settles, StopsBy, TellsSo};
ghost use Rattle.front_end.specs.Statuses.{IsStatusOf, is_output_or_memory, is_usage_or_memory};

use crate::fault::Fault;
use crate::offered::{CommandRow, Operands};
use crate::parser::{reason_of, shown_words};
use crate::reporting::report;
use clap::error::ErrorKind;
use clap::{ArgMatches, Command, Error};
use std::alloc::{AllocError, Global};
use std::io::{IsTerminal, Write};

/// The version of all programs.
const VERSION: &str = "0.1.0";

/// What the command line of a program is.
#[derive(Clone, Copy)]
pub struct CommandLine {
    /// With which its messages begin.
    pub name: &'static str,
    /// The program as a command.
    pub row: CommandRow,
    /// Its commands, of which one is to be named if there are any.
    pub commands: &'static [CommandRow],
    /// Of an option that is given twice the last value counts; else that is a fault.
    pub takes_last: bool,
}

/// Why words ask for no run.
#[derive(Debug, Drop)]
pub enum NoRun {
    /// They ask for this text, the help or the version.
    Help(String),
    /// They are refused, for this reason.
    Refused(String),
    /// Memory was refused.
    Memory,
}

impl CommandLine {
    /// The program, for the parser.
    fn offer<'a>(&self, alloc: Global) -> Result<Command<'a>, AllocError> {
        let mut command = self
            .row
            .offer(alloc)?
            .version(VERSION)
            .args_override_self(self.takes_last)
            .subcommand_required(!self.commands.is_empty());
        for row in self.commands {
            command = command.subcommand(row.offer(alloc)?)?;
        }
        Ok(command)
    }

    /// What the parser gives of the words, the program's name first.
    pub fn parse<'a>(&self, alloc: Global, words: &'a [String]) -> Result<ArgMatches<'a>, Error> {
        self.offer(alloc)?.try_get_matches_from(words)
    }

    /// The command that the words name: the program itself, if it has no commands.
    fn named(&self, words: &[String]) -> Option<&CommandRow> {
        if self.commands.is_empty() {
            return Some(&self.row);
        }
        let name = words.get(1)?;
        self.commands.iter().find(|row| row.name == name.as_str())
    }

    /// The words are those of a command that runs a program, and no `--` stands before one.
    fn lacks_divider(&self, words: &[String]) -> bool {
        match self.named(words) {
            Some(row) => {
                matches!(row.takes, Operands::Program(_))
                    && !words.iter().any(|word| word.as_str() == "--")
            }
            None => false,
        }
    }

    /// Why the words are refused, where the parser refuses them for a fault of this kind.
    pub fn reason(
        &self,
        alloc: Global,
        kind: ErrorKind,
        words: &[String],
    ) -> Result<String, AllocError>
        ensures { kind ≡ ErrorKind.OutOfMemory → IsErr result }
    {
        if kind == ErrorKind::OutOfMemory {
            return Err(AllocError);
        }
        let shown = shown_words(alloc, words)?;
        match self.parse(alloc, shown.as_slice()) {
            Ok(_) => format!(in alloc; "a word is malformed"),
            Err(error) => reason_of(alloc, error, self.lacks_divider(words)),
        }
    }

    /// What the parser gives in the place of matches.
    fn stop(&self, alloc: Global, error: Error, words: &[String]) -> NoRun
        ensures { StopsBy error result }
    {
        if error.use_stderr() {
            match self.reason(alloc, error.kind(), words) {
                Ok(reason) => NoRun::Refused(reason),
                Err(_) => NoRun::Memory,
            }
        } else {
            match format!(in alloc; "{error}") {
                Ok(text) => NoRun::Help(text),
                Err(_) => NoRun::Memory,
            }
        }
    }

    /// What the words come to, by what the parser gives of them.
    fn read_parsed<'a>(
        &self,
        alloc: Global,
        parsed: Result<ArgMatches<'a>, Error>,
        words: &[String],
    ) -> Result<ArgMatches<'a>, NoRun>
        ensures { ComesTo parsed.entry result }
    {
        match parsed {
            Ok(matches) => Ok(matches),
            Err(error) => Err(self.stop(alloc, error, words)),
        }
    }

    /// What the words come to, the program's name first.
    pub fn read<'a>(&self, alloc: Global, words: &'a [String]) -> Result<ArgMatches<'a>, NoRun> {
        self.read_parsed(alloc, self.parse(alloc, words), words)
    }

    /// Reports a fault on `err`, and explains it at a terminal; gives the status.
    pub fn tell<E: Write + IsTerminal>(&self, fault: Fault, err: &mut E) -> u8
        ensures told { TellsSo self.now.name.now fault (E.contents err.old) (E.contents err.new) result }
        ensures usage { is_usage_or_memory fault ≡ true → (result ≡ 2) ⊎ (result ≡ 3) }
        ensures output { is_output_or_memory fault ≡ true → result ≡ 3 }
    {
        let explained = err.is_terminal();
        report(self.name, &fault, explained, err)
    }

    /// The status of a command that ended so. A fault is reported.
    pub fn settle<E: Write>(&self, ended: Result<u8, Fault>, explained: bool, err: &mut E) -> u8
        ensures settled { Settles self.now.name.now ended explained
            (E.contents err.old) (E.contents err.new) result }
        ensures status { IsStatusOf ended result }
    {
        match ended {
            Ok(status) => status,
            Err(fault) => report(self.name, &fault, explained, err),
        }
    }

    /// Writes a text to the output, and tells where this can't be done; gives the status.
    fn print<O: Write, E: Write + IsTerminal>(
        &self,
        alloc: Global,
        text: &str,
        out: &mut O,
        err: &mut E,
    ) -> u8
        ensures printed { Prints self.now.name.now text.now (O.contents out.old) (O.contents out.new)
            (E.contents err.old) (E.contents err.new) result }
        ensures status { (result ≡ 0) ⊎ (result ≡ 3) }
    {
        match out.write_all(text.as_bytes()) {
            Ok(()) => 0,
            Err(error) => {
                let text = format!(in alloc; "standard output: {error}");
                self.tell(Fault::output(text), err)
            }
        }
    }

    /// Says what the words come to in the place of a run, and gives the status.
    pub fn answer<O: Write, E: Write + IsTerminal>(
        &self,
        alloc: Global,
        no_run: NoRun,
        out: &mut O,
        err: &mut E,
    ) -> u8
        ensures said { Answers self.now.name.now no_run (O.contents out.old) (O.contents out.new)
            (E.contents err.old) (E.contents err.new) result }
        ensures status { IsStatusWithout no_run result }
    {
        match no_run {
            NoRun::Help(text) => self.print(alloc, text.as_str(), out, err),
            NoRun::Refused(reason) => self.tell(Fault::Usage(reason), err),
            NoRun::Memory => self.tell(Fault::Memory, err),
        }
    }
}

/// Faults are to be explained: the words ask for it, or there is a terminal to read it at.
pub fn is_explained<E: IsTerminal>(matches: &ArgMatches, err: &E) -> bool {
    matches.get_flag("explain") || err.is_terminal()
}
