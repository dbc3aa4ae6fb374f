//! What a unit's header says of its program (DWARF 5, 6.2.4).

/// The fields of a header, by the standard's names.
#[derive(Clone, Copy)]
pub struct Header {
    /// Whether offsets have 8 bytes (7.4).
    pub wide: bool,
    pub version: u16,
    pub minimum_instruction_length: u8,
    pub maximum_operations: u8,
    pub default_is_stmt: bool,
    /// A byte that may be below 0.
    pub line_base: u8,
    pub line_range: u8,
    pub opcode_base: u8,
}
