//! The tracer.

ghost use Rattle.std.specs.Prelude.{◌≡◌, ℕ, false};
ghost use Rattle.std.specs.Coded.{→_prop};
ghost use Rattle.tr_core.specs.Held.{Holds, Holds-prop};
ghost use Rattle.tr_core.specs.Hearings.{counts_at};
ghost use Rattle.tr_core.specs.Settings.{first_pen, options_by};
ghost use Rattle.tr_core.specs.Outcomes.{outcome_in as outcome_kept, outcome_of};
ghost use Rattle.tr_core.specs.States.{new_state};
ghost use Rattle.lx_abi.specs.Scripts.{choice_of};

use crate::asking::act;
use crate::living::Living;
use crate::place::Focus;
use crate::session::Session;
use crate::settings::{Options, Settings};
use crate::stepping::{Core, step};
use crate::tracing::{Act, TraceFault, Tracing};
use lx_abi::{Occurrences, Outcome, Reply, Script};
use shelves::Shelf;
use std::alloc::Global;
use tr_line::{Layout, Printer};

/// The tracer: it takes replies one by one, Boot's Done first.
#[derive(Drop)]
pub struct Tracer {
    core: Core,
    /// How many replies it took without a fault.
    taken: u64,
    /// Met want of memory.
    failed: bool,
    ghost held: { failed ≡ false → Holds core } by { →_prop (Holds-prop core) },
}

fn outcome(focus: Focus) -> Option<Outcome>
    ensures { result ≡ outcome_kept focus }
{
    match focus {
        Focus::Over(outcome) => Some(outcome.into_inner()),
        _ => None,
    }
}

impl Tracer {
    ghost use Rattle.tr_core.specs.Tracers.{state_of};

    /// A tracer that has heard nothing.
    #[tactic(auto, unfolding(crate::specs::Tracers::state_of))]
    pub fn new(alloc: Global, script: Script, options: Options) -> Self
        ensures { state_of result ≡ new_state (options_by options) (choice_of script) (first_pen options) }
    {
        let layout = Layout {
            follow: options.follow,
            width: options.width,
        };
        let printer = Printer::new(alloc, layout);
        Tracer {
            core: Core {
                session: Session {
                    settings: Settings {
                        alloc,
                        options,
                        script,
                    },
                    counts: Occurrences::new(alloc),
                    printer,
                },
                known: Shelf::new(alloc),
                living: Living::new(alloc),
                focus: Focus::Booting,
            },
            taken: 0,
            failed: false,
        }
    }

    /// The outcome of a whole run, and how often each tracee entered each call.
    #[tactic(auto, unfolding(crate::specs::Tracers::state_of))]
    pub fn into_parts(self) -> (Option<Outcome>, Occurrences)
        ensures outcome { result.0 ≡ outcome_of (state_of self) }
        ensures counts { (pid : ℕ) → ((state_of self).tracer.known pid).counts ≡ counts_at result.1 pid }
    {
        let Tracer { core, .. } = self;
        let Core { focus, session, .. } = core;
        let Session { counts, .. } = session;
        (outcome(focus), counts)
    }
}

impl Tracing for Tracer {
    ghost use Rattle.tr_core.specs.Tracers.{state_of};

    ghost state = { state_of };

    #[inline(always)]
    #[tactic(auto, unfolding(crate::specs::States::taken_of, crate::specs::Tracers::state_of))]
    fn next(&mut self, reply: Reply) -> Result<Act, TraceFault> {
        if self.failed {
            return Err(TraceFault::Memory);
        }
        match step(&mut self.core, reply) {
            Ok(Some(bytes)) => match act(&self.core, bytes) {
                Ok(act) => {
                    self.taken += 1;
                    Ok(act)
                }
                Err(_) => {
                    self.failed = true;
                    Err(TraceFault::Memory)
                }
            },
            Ok(None) => Err(TraceFault::Inadmissible),
            Err(_) => {
                self.failed = true;
                Err(TraceFault::Memory)
            }
        }
    }

    #[tactic(auto, unfolding(crate::specs::States::taken_of, crate::specs::Tracers::state_of))]
    fn taken(&self) -> u64 {
        self.taken
    }
}
