//! Where a file's table of frames stands.

ghost use Rattle.std.specs.Prelude.{◌≡◌, ◌+◌, ◌≤◌, length, IfSome};
ghost use Rattle.elf_frames.specs.Tables as spec;
ghost use Rattle.elf_symbols.specs.Named.{section_named as section};

use elf_symbols::section_named;
use elf_symbols::sections::Content;

/// A table of frames: what it has in the file, the address at which that is loaded, and whether it is an `.eh_frame`.
#[derive(Clone, Copy, Debug)]
pub struct Table {
    pub content: Content,
    pub address: u64,
    pub is_eh_frame: bool,
}

/// The table in the section of this name.
fn table_named(bytes: &[u8], name: &[u8], is_eh_frame: bool) -> Option<Table>
    ensures found { result ≡ spec.table_with is_eh_frame (section bytes.now name.now) }
    ensures inside { IfSome result (λ t. t.content.start + t.content.size ≤ length bytes.now) }
{
    match section_named(bytes, name) {
        Some(section) => Some(Table {
            content: section.content,
            address: section.address,
            is_eh_frame,
        }),
        None => None,
    }
}

/// The table of frames of a file; none where it has none that lies in the file.
#[tactic(auto, unfolding(crate::specs::Tables::table_of))]
pub fn table_of(bytes: &[u8]) -> Option<Table>
    ensures found { result ≡ spec.table_of bytes.now }
    ensures inside { IfSome result (λ t. t.content.start + t.content.size ≤ length bytes.now) }
{
    match table_named(bytes, b".debug_frame".as_slice(), false) {
        Some(table) => Some(table),
        None => table_named(bytes, b".eh_frame".as_slice(), true),
    }
}
