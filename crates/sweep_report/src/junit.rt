//! The report as JUnit has it: a case a call, which fails where a run of it is a finding.

use crate::blocks::{Block, blocks_of, first_in, first_of};
use crate::entries::Entry;
use crate::report::{outcome_text, push_command, verdict_text};
use crate::told::Told;
use std::alloc::{AllocError, Global};
use sweep_rows::Setup;

/// A text as XML has it within quotes.
fn escaped_text(alloc: Global, text: &str) -> Result<String, AllocError> {
    let mut escaped = String::new(alloc);
    for c in text.chars() {
        match c {
            '&' => escaped.push_str("&amp;")?,
            '<' => escaped.push_str("&lt;")?,
            '>' => escaped.push_str("&gt;")?,
            '"' => escaped.push_str("&quot;")?,
            _ => escaped.push(c)?,
        }
    }
    Ok(escaped)
}

/// The findings of a block, a line each; none, where it has none.
fn findings_of(
    alloc: Global,
    rows: &[Told],
    block: &Block,
    all: &[Entry],
) -> Result<String, AllocError> {
    let mut text = String::new(alloc);
    for line in &block.lines {
        if let Some(first) = first_of(rows, line) {
            if first.finding {
                let told = outcome_text(alloc, rows, line, first, all)?;
                let verdict = verdict_text(alloc, first)?;
                text.push_str(format!(in alloc; "{verdict} {told}\n")?.as_str())?;
            }
        }
    }
    Ok(text)
}

/// What a case says beside its name.
fn body_of(
    alloc: Global,
    setup: &Setup,
    rows: &[Told],
    block: &Block,
    first: &Told,
) -> Result<String, AllocError> {
    let all = block.entries(alloc, rows)?;
    let findings = findings_of(alloc, rows, block, all.as_slice())?;
    let Some((message, _)) = findings.as_str().split_once('\n') else {
        return Ok(String::new(alloc));
    };
    let message = escaped_text(alloc, message)?;
    let mut text = format!(in alloc; "{}\n{findings}", first.text)?;
    push_command(&mut text, alloc, setup, Some(first))?;
    let text = escaped_text(alloc, text.as_str())?;
    format!(in alloc; "    <failure message=\"{message}\">{text}</failure>\n")
}

fn has_finding(rows: &[Told], block: &Block) -> bool {
    block.lines.iter().any(|line| match first_of(rows, line) {
        Some(first) => first.finding,
        None => false,
    })
}

/// A known finding is among the runs of a block, and no other.
fn is_skipped(rows: &[Told], block: &Block) -> bool {
    let has_known = block.lines.iter().any(|line| match first_of(rows, line) {
        Some(first) => first.known,
        None => false,
    });
    has_known && !has_finding(rows, block)
}

/// A case.
fn case_of(
    alloc: Global,
    setup: &Setup,
    rows: &[Told],
    block: &Block,
) -> Result<String, AllocError> {
    let Some(first) = first_in(rows, block) else {
        return Ok(String::new(alloc));
    };
    let name = escaped_text(alloc, first.site.as_str())?;
    let mut body = body_of(alloc, setup, rows, block, first)?;
    if is_skipped(rows, block) {
        body.push_str("    <skipped message=\"known\"/>\n")?;
    }
    format!(in alloc;
        "  <testcase classname=\"strace_sweep\" name=\"{name}\">\n{body}  </testcase>\n"
    )
}

/// What stands before a text in XML.
pub const PROLOG: &str = "<?xml version=\"1.0\" encoding=\"UTF-8\"?>\n";

/// The case that stands for the runs that weren't made, if there are any.
fn unmade_case(alloc: Global, unmade: usize) -> Result<String, AllocError> {
    if unmade == 0 {
        return Ok(String::new(alloc));
    }
    format!(in alloc;
        "  <testcase classname=\"strace_sweep\" name=\"{unmade} runs\">\n    <skipped message=\"not made\"/>\n  </testcase>\n"
    )
}

/// What stands before the cases of a suite.
fn head(
    alloc: Global,
    name: &str,
    rows: &[Told],
    blocks: &[Block],
    unmade: usize,
) -> Result<String, AllocError> {
    let others = usize::from(unmade > 0);
    let failed = blocks
        .iter()
        .filter(|block| has_finding(rows, *block))
        .count();
    let skipped = blocks
        .iter()
        .filter(|block| is_skipped(rows, *block))
        .count();
    let counts = format!(in alloc;
        "tests=\"{}\" failures=\"{failed}\" skipped=\"{}\"",
        blocks.len().saturating_add(others),
        skipped.saturating_add(others)
    )?;
    let name = escaped_text(alloc, name)?;
    format!(in alloc; "<testsuite name=\"{name}\" {counts}>\n")
}

/// A suite of this name.
fn suite(
    alloc: Global,
    name: &str,
    setup: &Setup,
    rows: &[Told],
    unmade: usize,
) -> Result<String, AllocError> {
    let blocks = blocks_of(alloc, rows)?;
    let mut text = head(alloc, name, rows, blocks.as_slice(), unmade)?;
    for block in &blocks {
        text.push_str(case_of(alloc, setup, rows, block)?.as_str())?;
    }
    text.push_str(unmade_case(alloc, unmade)?.as_str())?;
    text.push_str("</testsuite>\n")?;
    Ok(text)
}

/// The whole report, or the suite of a case of this name, of which the report has several. `unmade`: how many runs a
/// limit left out.
pub fn junit(
    alloc: Global,
    case: Option<&String>,
    setup: &Setup,
    rows: &[Told],
    unmade: usize,
) -> Result<String, AllocError> {
    match case {
        Some(name) => suite(alloc, name.as_str(), setup, rows, unmade),
        None => {
            let mut text = String::from_str(alloc, PROLOG)?;
            text.push_str(suite(alloc, "strace_sweep", setup, rows, unmade)?.as_str())?;
            Ok(text)
        }
    }
}
