//! What is told after a run: calls that aren't here, and occurrences that were never reached.

use crate::expressions::{expression_words, read_expression};
use crate::fault::Fault;
use crate::linux_calls::{LAST_NUMBER, linux_name};
use clap::ArgMatches;
use lx_abi::calls::call_name;
use lx_abi::sys::{SYS_CLONE, SYS_EXECVE};
use lx_abi::{Occurrences, Rule, Set, When};
use std::alloc::{AllocError, Global};
use tr_expr::Expr;

/// The most processes that a run has.
const MOST_PROCESSES: u32 = 32_767;

/// How often a process entered each call: the one that entered it most often.
#[derive(Drop)]
pub struct Entered {
    /// By number.
    most: Vec<u64>,
    /// Calls of several processes were counted.
    several: bool,
}

/// The highest pid that a run with these entries can have: each child comes of an entry into clone by a lower one.
fn last_pid(counts: &Occurrences) -> u32 {
    let mut last = 1;
    for pid in 1..MOST_PROCESSES {
        if pid > last {
            break;
        }
        let children = u32::try_from(counts.latest(pid, SYS_CLONE)).unwrap_or(MOST_PROCESSES);
        last = last.saturating_add(children).min(MOST_PROCESSES);
    }
    last
}

impl Entered {
    pub fn of(alloc: Global, counts: &Occurrences) -> Result<Self, AllocError> {
        let mut most = Vec::new(alloc);
        let mut several = false;
        let last = last_pid(counts);
        for number in 0..=LAST_NUMBER {
            let mut entries = counts.latest(1, number);
            for pid in 2..=last {
                let others = counts.latest(pid, number);
                several = several || others > 0;
                entries = entries.max(others);
            }
            most.push(entries)?;
        }
        Ok(Entered { most, several })
    }

    fn most(&self, number: u64) -> u64 {
        match usize::try_from(number) {
            Ok(place) => self.most.get(place).copied().unwrap_or(0),
            Err(_) => 0,
        }
    }

    /// The calls that aren't here, by their names in Linux.
    fn explain_missing(&self, alloc: Global) -> Result<Option<String>, AllocError> {
        let mut text = String::new(alloc);
        for number in 0..=LAST_NUMBER {
            match linux_name(number) {
                Some(name) if self.most(number) > 0 => {
                    let mark = if text.is_empty() { "not here:" } else { "," };
                    text.push_str(format!(in alloc; "{mark} {name} ({number})")?.as_str())?;
                }
                _ => (),
            }
        }
        Ok(if text.is_empty() { None } else { Some(text) })
    }

    /// How often a call was entered.
    fn explain_count(&self, alloc: Global, number: u64) -> Result<String, AllocError> {
        let name = call_name(number).unwrap_or("a call that isn't here");
        let times = match self.most(number) {
            0 => return format!(in alloc; "{name} was never entered"),
            1 => format!(in alloc; "once")?,
            2 => format!(in alloc; "twice")?,
            count => format!(in alloc; "{count} times")?,
        };
        if self.several {
            format!(in alloc; "no process entered {name} more than {times}")
        } else {
            format!(in alloc; "{name} was entered {times}")
        }
    }

    /// How often the calls were entered that this rule decides, where no process reached its first occurrence.
    fn explain_counts(
        &self,
        alloc: Global,
        rules: &[Rule],
        place: usize,
        rule: &Rule,
    ) -> Result<Option<String>, AllocError> {
        let mut text = String::new(alloc);
        let mut decides_some = false;
        for number in (0..=LAST_NUMBER).filter(|number| decides(rules, place, *number)) {
            decides_some = true;
            let most = self.most(number);
            if most >= rule.when.first {
                return Ok(None);
            }
            if most > 0 || is_only(&rule.calls) {
                let mark = if text.is_empty() { "" } else { ", " };
                let count = self.explain_count(alloc, number)?;
                text.push_str(format!(in alloc; "{mark}{count}")?.as_str())?;
            }
        }
        if !decides_some {
            return Ok(None);
        }
        if text.is_empty() {
            text.push_str("none of its calls was entered")?;
        }
        Ok(Some(text))
    }

    fn explain_rule(
        &self,
        alloc: Global,
        rules: &[Rule],
        place: usize,
    ) -> Result<Option<String>, AllocError> {
        let Some(rule) = rules.get(place) else {
            return Ok(None);
        };
        match self.explain_counts(alloc, rules, place, rule)? {
            None => Ok(None),
            Some(counts) => {
                let when = when_text(alloc, rule.when)?;
                Ok(Some(format!(in alloc; "{when}{counts}")?))
            }
        }
    }

    /// What a user of these words is told of a run whose processes entered calls so: a text for each line.
    pub fn hints(&self, alloc: Global, matches: &ArgMatches) -> Result<Vec<String>, Fault> {
        let mut texts = Vec::new(alloc);
        if let Some(text) = self.explain_missing(alloc)? {
            texts.push(text)?;
        }
        let rules = read_rules(alloc, matches)?;
        for place in 0..rules.len() {
            if let Some(text) = self.explain_rule(alloc, rules.as_slice(), place)? {
                texts.push(text)?;
            }
        }
        Ok(texts)
    }

    /// The program made no call after the start of its own.
    pub fn has_not_begun(&self) -> bool {
        (0..=LAST_NUMBER).all(|number| number == SYS_EXECVE || self.most(number) == 0)
    }
}

/// A rule is the last that names the call, so it decides what is done to it.
fn decides(rules: &[Rule], place: usize, number: u64) -> bool {
    rules.iter().rposition(|rule| rule.calls.contains(number)) == Some(place)
}

/// The set is one call.
fn is_only(calls: &Set) -> bool {
    match calls {
        Set::Only(numbers) => numbers.as_slice().len() == 1,
        Set::AllBut(_) => false,
    }
}

/// The occurrences of a rule as its expression names them, and nothing where it names none.
fn when_text(alloc: Global, when: When) -> Result<String, AllocError> {
    let first = when.first;
    match (when.last, when.step) {
        (None, 1) if first == 1 => Ok(String::new(alloc)),
        (None, 1) => format!(in alloc; "when={first}+: "),
        (None, step) => format!(in alloc; "when={first}+{step}: "),
        (Some(last), _) if last == first => format!(in alloc; "when={first}: "),
        (Some(last), 1) => format!(in alloc; "when={first}..{last}: "),
        (Some(last), step) => format!(in alloc; "when={first}..{last}+{step}: "),
    }
}

/// The rules that the words make, in their order.
fn read_rules(alloc: Global, matches: &ArgMatches) -> Result<Vec<Rule>, Fault> {
    let mut rules = Vec::new(alloc);
    for word in expression_words(alloc, matches)? {
        let text = word.as_str();
        if let Expr::Inject(rule) = read_expression(alloc, text, text)? {
            rules.push(rule)?;
        }
    }
    Ok(rules)
}
