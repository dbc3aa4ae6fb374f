//! Commands, as the parser of words is to offer them.

use crate::option_table::{OptionRow, Takes, Tool, options};
use clap::{Arg, ArgAction, Command};
use std::alloc::{AllocError, Global};

/// A word of a command that has no options.
#[derive(Clone, Copy)]
pub struct WordRow {
    /// By which the program asks for it.
    pub id: &'static str,
    pub name: &'static str,
    pub help: &'static str,
    /// There may be several, or none.
    pub is_list: bool,
}

/// What a command takes.
#[derive(Clone, Copy)]
pub enum Operands {
    /// The options of this tool, and after `--` a program with its arguments.
    Program(Tool),
    /// These words in a row.
    Words(&'static [WordRow]),
}

/// A command.
#[derive(Clone, Copy)]
pub struct CommandRow {
    pub name: &'static str,
    pub about: &'static str,
    /// What help says last.
    pub notes: Option<&'static str>,
    pub takes: Operands,
}

/// An argument by the names of its row.
fn named<'a>(alloc: Global, row: &OptionRow) -> Arg<'a> {
    let arg = Arg::new(alloc, row.id);
    match (row.short, row.long) {
        (Some(letter), Some(name)) => arg.short(letter).long(name),
        (Some(letter), None) => arg.short(letter),
        (None, Some(name)) => arg.long(name),
        (None, None) => arg,
    }
}

/// The argument of a row.
fn option<'a>(alloc: Global, row: &OptionRow) -> Arg<'a> {
    let arg = named(alloc, row).help(row.help);
    match row.takes {
        Takes::Nothing => arg.action(ArgAction::SetTrue),
        Takes::Count => arg.action(ArgAction::Count),
        Takes::Value(name) => arg.value_name(name),
        Takes::Values(name) => arg.value_name(name).action(ArgAction::Append),
        Takes::Expressions(name) => arg
            .value_name(name)
            .allow_hyphen_values(true)
            .action(ArgAction::Append),
    }
}

/// Adds the options of a tool.
fn with_options<'a>(
    alloc: Global,
    mut command: Command<'a>,
    tool: Tool,
) -> Result<Command<'a>, AllocError> {
    for row in options() {
        if row.tools.contains(&tool) {
            command = command.arg(option(alloc, row))?;
        }
    }
    Ok(command)
}

/// Adds the words after `--`.
fn with_program<'a>(alloc: Global, command: Command<'a>) -> Result<Command<'a>, AllocError> {
    command.arg(
        Arg::new(alloc, "program")
            .value_name("PROG")
            .last(true)
            .required(true)
            .num_args(1..)
            .action(ArgAction::Append)
            .help("The program and its arguments"),
    )
}

/// The argument of a word.
fn word<'a>(alloc: Global, row: &WordRow) -> Arg<'a> {
    let arg = Arg::new(alloc, row.id).value_name(row.name).help(row.help);
    if row.is_list {
        arg.num_args(1..).action(ArgAction::Append)
    } else {
        arg.required(true)
    }
}

/// Adds words in a row.
fn with_words<'a>(
    alloc: Global,
    mut command: Command<'a>,
    words: &[WordRow],
) -> Result<Command<'a>, AllocError> {
    for row in words {
        command = command.arg(word(alloc, row))?;
    }
    Ok(command)
}

/// Adds what help says last.
fn with_notes<'a>(command: Command<'a>, notes: Option<&'static str>) -> Command<'a> {
    match notes {
        Some(notes) => command.after_help(notes),
        None => command,
    }
}

impl CommandRow {
    /// The command, for the parser.
    pub fn offer<'a>(&self, alloc: Global) -> Result<Command<'a>, AllocError> {
        let command = Command::new(alloc, self.name).about(self.about);
        let command = with_notes(command, self.notes);
        match self.takes {
            Operands::Program(tool) => {
                let command = with_options(alloc, command, tool)?;
                with_program(alloc, command)
            }
            Operands::Words(words) => with_words(alloc, command, words),
        }
    }
}
