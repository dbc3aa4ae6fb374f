//! How far a sweep is, on a terminal.

ghost use Rattle.std.specs.Prelude.{◌≡◌, true};
ghost use Rattle.sweep_command.specs.Reports.{is_given};

use std::alloc::{AllocError, Global};
use std::io::Write;
use std::time::{Clock, Duration, Instant};
use sweep_runs::Progress;

/// Shows how far a sweep is in one line, which it writes again and again.
#[derive(Drop)]
pub struct ShownProgress<'s, C, E> {
    alloc: Global,
    clock: &'s C,
    err: &'s mut E,
    is_shown: bool,
    /// When the sweep began, if the clock says so.
    start: Option<Instant>,
    findings: usize,
}

/// The line is written again after a hundredth of the runs.
fn is_due(made: usize, all: usize) -> bool {
    made.checked_rem(all / 100).map_or(true, |rest| rest == 0)
}

/// How fast the runs are made, and how many seconds the others take.
fn speed(alloc: Global, made: usize, all: usize, took: Duration) -> Result<String, AllocError> {
    let milliseconds = u64::try_from(took.as_millis()).unwrap_or(u64::MAX);
    let (made, left) = (made as u64, all.saturating_sub(made) as u64);
    let rate = made.saturating_mul(1000).checked_div(milliseconds);
    let seconds = (left.saturating_mul(milliseconds) / 1000).checked_div(made);
    match (rate, seconds) {
        (Some(rate), Some(left)) => {
            format!(in alloc; ", {rate} a second, {}:{:02} left", left / 60, left % 60)
        }
        _ => Ok(String::new(alloc)),
    }
}

impl<'s, C: Clock, E: Write> ShownProgress<'s, C, E> {
    pub fn new(alloc: Global, clock: &'s C, err: &'s mut E, is_shown: bool) -> Self {
        ShownProgress {
            alloc,
            clock,
            err,
            is_shown,
            start: Instant::now(clock).ok(),
            findings: 0,
        }
    }

    /// So many findings more.
    pub fn found(&mut self, findings: usize) {
        self.findings = self.findings.saturating_add(findings);
    }

    /// So many seconds are over, if a number is given.
    pub fn is_past(&self, seconds: Option<u64>) -> bool
        ensures { result ≡ true → is_given seconds ≡ true }
    {
        let Some(seconds) = seconds else {
            return false;
        };
        match self.took() {
            Some(took) => took.as_secs() >= seconds,
            None => false,
        }
    }

    /// How long the sweep takes, if the clock tells it.
    fn took(&self) -> Option<Duration> {
        self.start?.elapsed(self.clock).ok()
    }

    /// How fast the runs are made, if the clock tells it.
    fn speed(&self, made: usize, all: usize) -> Option<String> {
        let took = self.took()?;
        speed(self.alloc, made, all, took).ok()
    }

    fn show(&mut self, made: usize, all: usize) {
        let speed = self.speed(made, all);
        let speed = speed.as_ref().map_or("", |speed| speed.as_str());
        // The runs go on, whether this can be written or not.
        let _written = match self.findings {
            0 => write!(self.err, "\r{made} of {all} runs{speed}\x1b[K"),
            found => write!(
                self.err,
                "\r{made} of {all} runs, {found} findings{speed}\x1b[K"
            ),
        };
    }

    /// Takes the line away.
    pub fn end(&mut self) {
        if self.is_shown {
            // The runs are made, whether this can be written or not.
            let _written = write!(self.err, "\r\x1b[K");
        }
    }
}

impl<C: Clock, E: Write> Progress for ShownProgress<'_, C, E> {
    fn tell(&mut self, made: usize, all: usize) {
        if self.is_shown && is_due(made, all) {
            self.show(made, all);
        }
    }
}
