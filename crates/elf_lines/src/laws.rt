//! Laws of the rows that are found: contracts of functions with an empty body.

ghost use Rattle.elf_lines.specs.Index.{FoundCovers, CoveringIsFound};

/// The row that is found is one of the file, and covers the address.
pub fn found_rows_cover()
    ensures { FoundCovers }
{}

/// Where no two rows of a file cover one address, the one that covers an address is found.
pub fn covering_rows_are_found()
    ensures { CoveringIsFound }
{}
