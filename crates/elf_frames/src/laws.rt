//! Laws of stacks and of the FDEs that are found: contracts of functions with an empty body.

ghost use Rattle.std.specs.Prelude.{List, ℕ, Option, length, ◌≤◌};
ghost use Rattle.elf_frames.specs.Index.{FoundCovers, CoveringIsFound};
ghost use Rattle.elf_frames.specs.Frames.{stack_of};
ghost use Rattle.elf_frames.specs.declared.entries.Fde.{Fde as Entry};
ghost use Rattle.elf_frames.specs.declared.frames.Frame.{Frame as Call};

/// The FDE that is found is one of the table, and covers the address.
pub fn found_fdes_cover()
    ensures { FoundCovers }
{}

/// Where no two FDEs of a table cover one address, the one that covers an address is found.
pub fn covering_fdes_are_found()
    ensures { CoveringIsFound }
{}

/// A stack has 64 frames at most, whatever the file, the registers and memory.
pub fn stacks_are_short()
    ensures { (memory : ℕ → Option ℕ) (bytes : List ℕ) (index : List Entry) (f : Call)
        → length (stack_of memory bytes index f) ≤ 64 }
{}
