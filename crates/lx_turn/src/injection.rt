//! What a script does to the calls of a process.

ghost use Rattle.std.specs.Prelude.{◌≡◌};
ghost use Rattle.lx_abi.specs.Occurrences.{count_of};
ghost use Rattle.lx_abi.specs.Scripts.{choice_of};
ghost use Rattle.lx_turn.specs.Injection.{choice_in};

use lx_abi::{Choice, Occurrences, Script};

/// What a script does, and the entries that it counts.
#[derive(Clone, Copy)]
pub struct Injection<'a> {
    pub script: &'a Script,
    pub occurrences: &'a Occurrences,
    pub follow: bool,
}

impl Injection<'_> {
    /// What the script does to the latest entry of a process into a call. One without rules does nothing, whichever it
    /// is.
    #[tactic(auto, unfolding(lx_abi::specs::Scripts::choice_of))]
    fn choose(&self, pid: u32, number: u64) -> Choice
        ensures { result ≡ choice_of self.now.script.now number (count_of self.now.occurrences.now pid number) }
    {
        if self.script.rules().is_empty() {
            return Choice::NOTHING;
        }
        self.script
            .choose(number, self.occurrences.latest(pid, number))
    }

    /// What is done to the call that a process has entered.
    pub fn choice(&self, pid: u32, number: u64) -> Choice
        ensures { result ≡ choice_in self.now pid number }
    {
        if self.follow || pid == 1 {
            self.choose(pid, number)
        } else {
            Choice::NOTHING
        }
    }
}
