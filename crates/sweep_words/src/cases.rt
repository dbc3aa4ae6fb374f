//! The cases that a file names, a line each: words that stand with those of the command line.

use clap::ArgMatches;
use front_end::{Fault, Shown, read_text};
use std::alloc::{AllocError, Global};
use std::rt::Files;

/// The most bytes of a file of cases.
const MOST_CASES: u64 = 1_048_576;

/// Options that are for all cases, each as it is written.
const FOR_ALL: [(&str, &str); 6] = [
    ("cases", "--cases"),
    ("format", "--format"),
    ("known", "--known"),
    ("known-out", "--known-out"),
    ("output", "-o"),
    ("show", "--show"),
];

/// A case, which is a sweep by words of its own.
#[derive(Drop)]
pub struct NamedCase {
    /// The number of its line, the first being 1.
    pub line: usize,
    pub name: String,
    /// The line.
    pub text: String,
    /// The file that holds its input, if it has one.
    pub input: Option<String>,
    /// All words of its sweep, the program's name first.
    pub words: Vec<String>,
}

/// The words of a line behind the name.
#[derive(Drop)]
struct Line {
    input: Option<String>,
    options: Vec<String>,
    /// Further words of the guest's program.
    arguments: Vec<String>,
    /// What comes next is such a word.
    is_behind: bool,
}

impl Line {
    fn add(&mut self, word: String) -> Result<(), AllocError> {
        if self.is_behind {
            self.arguments.push(word)?;
        } else if word.as_str() == "--" {
            self.is_behind = true;
        } else {
            self.options.push(word)?;
        }
        Ok(())
    }
}

fn line_of(alloc: Global, text: &str) -> Result<Line, AllocError> {
    let mut line = Line {
        input: None,
        options: Vec::new(alloc),
        arguments: Vec::new(alloc),
        is_behind: false,
    };
    for word in text.split(' ') {
        match word.strip_prefix('<') {
            Some(path) if !line.is_behind => line.input = Some(String::from_str(alloc, path)?),
            _ if word.is_empty() => {}
            _ => line.add(String::from_str(alloc, word)?)?,
        }
    }
    Ok(line)
}

/// Adds words.
fn push_all(alloc: Global, words: &mut Vec<String>, more: &[String]) -> Result<(), AllocError> {
    for word in more {
        words.push(String::from_str(alloc, word.as_str())?)?;
    }
    Ok(())
}

/// The words of the command line before the `--` in front of the guest's program, which has so many words.
fn front<'w>(words: &'w [String], program: usize) -> &'w [String] {
    let count = words.len().saturating_sub(program).saturating_sub(1);
    words.get(..count).unwrap_or(&[])
}

/// The words of the command line with those of a case.
fn with_line(
    alloc: Global,
    words: &[String],
    program: &[&str],
    line: &Line,
) -> Result<Vec<String>, AllocError> {
    let mut all = Vec::new(alloc);
    push_all(alloc, &mut all, front(words, program.len()))?;
    push_all(alloc, &mut all, line.options.as_slice())?;
    all.push(String::from_str(alloc, "--")?)?;
    for word in program {
        all.push(String::from_str(alloc, *word)?)?;
    }
    push_all(alloc, &mut all, line.arguments.as_slice())?;
    Ok(all)
}

/// Adds the case of a line; blank ones, and those that begin with a `#`, have none.
fn add_case(
    cases: &mut Vec<NamedCase>,
    alloc: Global,
    words: &[String],
    program: &[&str],
    number: usize,
    text: &str,
) -> Result<(), AllocError> {
    let text = text.trim();
    if text.is_empty() || text.starts_with('#') {
        return Ok(());
    }
    let (name, rest) = text.split_once(' ').unwrap_or((text, ""));
    let line = line_of(alloc, rest)?;
    let words = with_line(alloc, words, program, &line)?;
    cases.push(NamedCase {
        line: number,
        name: String::from_str(alloc, name)?,
        text: String::from_str(alloc, text)?,
        input: line.input,
        words,
    })?;
    Ok(())
}

/// The cases that the file of `--cases` names, where the command line has these words.
pub fn read_cases<R: Files + AllocGlobal>(
    rt: &R,
    matches: &ArgMatches,
    words: &[String],
    path: &str,
) -> Result<Vec<NamedCase>, Fault> {
    let alloc = rt.alloc();
    let text = read_text(rt, "--cases ", path, MOST_CASES)?;
    let program = matches.get_strs("program").unwrap_or(&[]);
    let mut cases = Vec::new(alloc);
    let mut number: usize = 0;
    for line in text.lines() {
        number = number.saturating_add(1);
        add_case(&mut cases, alloc, words, program, number, line)?;
    }
    Ok(cases)
}

/// The words of a case have no option that is for all cases.
pub fn check_case(alloc: Global, all: &ArgMatches, own: &ArgMatches) -> Result<(), Fault> {
    for (id, option) in FOR_ALL {
        if all.get_str(id) != own.get_str(id) {
            return Err(Fault::usage(format!(in alloc; "{option} is for all cases")));
        }
    }
    Ok(())
}

/// Where a case stands, as it is told.
pub fn place_of(alloc: Global, path: &str, case: &NamedCase) -> Result<String, AllocError> {
    format!(in alloc;
        "--cases {}: line {}, {}",
        Shown(path),
        case.line,
        Shown(case.name.as_str())
    )
}
