//! Who watches a run.

ghost use Rattle.std.specs.Prelude.{◌≡◌, ◌++◌, [], ◌∷◌, OnErr, IsTrue};

use history::History;
use lx_abi::Item;
use lx_kernel::Kernel;

/// The watcher wants no more of the run.
#[derive(Clone, Copy, Debug, PartialEq, Eq)]
pub struct Weary;

/// Is told what a kernel logs, as it is logged. What it does with that changes nothing of the run but where it ends.
pub trait Watch {
    ghost use Rattle.std.specs.Prelude.{◌≡◌, ◌++◌, ℕ, Bool, List, [], ◌∷◌, Option};
    ghost use Rattle.lx_abi.specs.declared.log.Item.{Item as Logged};
    ghost use Rattle.lx_abi.specs.Log.{Noted};
    ghost use Rattle.plain_run.specs.Notes.{noted_in};

    /// What it was told, in order.
    ghost told: { Self → List Logged };

    /// What became of the first by the second, which was told these, each with what its process could read. It is for
    /// the watcher to say what that is.
    ghost noting: { Self → Self → List Noted → Type 0 };

    /// It has said that it wants no more.
    ghost weary: { Self → Bool };

    /// What its output, if it has one, had before it.
    ghost begun: { Self → Option (List ℕ) };

    /// How many turns may pass before it is told of them.
    fn patience(&self) -> u64;

    /// So many turns have logged nothing.
    fn pass(&mut self, turns: u64) -> Result<(), Weary>
        ensures told { told self.new ≡ told self.old }
        ensures noted { (first : Self) (ns : List Noted) → noting first self.old ns → noting first self.new ns }
        ensures begun { begun self.new ≡ begun self.old }
        ensures weary { OnErr result (IsTrue (weary self.new)) };

    /// The kernel has logged this in its last turn. What wants no more was told it all the same.
    fn see(&mut self, kernel: &Kernel, item: &Item) -> Result<(), Weary>
        ensures told { told self.new ≡ told self.old ++ item.now ∷ [] }
        ensures noted { (first : Self) (ns : List Noted) → noting first self.old ns
            → noting first self.new (ns ++ noted_in kernel.now item.now ∷ []) }
        ensures begun { begun self.new ≡ begun self.old }
        ensures weary { OnErr result (IsTrue (weary self.new)) };
}

/// Nobody: what it is told is forgotten.
#[derive(Drop)]
pub struct Unwatched {
    told: History<Item>,
}

impl Unwatched {
    ghost use Rattle.plain_run.specs.Watched.{told_to};

    pub fn new() -> Self
        ensures { told_to result ≡ [] }
    {
        Unwatched {
            told: History::new(),
        }
    }
}

impl Watch for Unwatched {
    ghost use Rattle.std.specs.Prelude.{false, None, ⊤};
    ghost use Rattle.plain_run.specs.Watched.{told_to};

    ghost told = { told_to };

    ghost noting = { λ _ _ _. ⊤ };

    ghost weary = { λ _. false };

    ghost begun = { λ _. None };

    fn patience(&self) -> u64 {
        u64::MAX
    }

    fn pass(&mut self, _turns: u64) -> Result<(), Weary> {
        Ok(())
    }

    fn see(&mut self, _kernel: &Kernel, item: &Item) -> Result<(), Weary> {
        self.told = self.told.and(item);
        Ok(())
    }
}
