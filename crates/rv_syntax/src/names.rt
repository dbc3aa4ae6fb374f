//! Names of registers.

ghost use Rattle.std.specs.Prelude.{◌≡◌, map};
ghost use Rattle.rv_syntax.specs.Names.{row, number_in, number_of, register_of};
ghost use Rattle.rv_syntax.specs.Numbered.{numbered};

use rv_isa::Register;

/// The names, and the numbers that they stand for.
const NAMES: [(&[u8], u8); 65] = [
    (b"x0", 0),
    (b"x1", 1),
    (b"x2", 2),
    (b"x3", 3),
    (b"x4", 4),
    (b"x5", 5),
    (b"x6", 6),
    (b"x7", 7),
    (b"x8", 8),
    (b"x9", 9),
    (b"x10", 10),
    (b"x11", 11),
    (b"x12", 12),
    (b"x13", 13),
    (b"x14", 14),
    (b"x15", 15),
    (b"x16", 16),
    (b"x17", 17),
    (b"x18", 18),
    (b"x19", 19),
    (b"x20", 20),
    (b"x21", 21),
    (b"x22", 22),
    (b"x23", 23),
    (b"x24", 24),
    (b"x25", 25),
    (b"x26", 26),
    (b"x27", 27),
    (b"x28", 28),
    (b"x29", 29),
    (b"x30", 30),
    (b"x31", 31),
    (b"zero", 0),
    (b"ra", 1),
    (b"sp", 2),
    (b"gp", 3),
    (b"tp", 4),
    (b"t0", 5),
    (b"t1", 6),
    (b"t2", 7),
    (b"s0", 8),
    (b"fp", 8),
    (b"s1", 9),
    (b"a0", 10),
    (b"a1", 11),
    (b"a2", 12),
    (b"a3", 13),
    (b"a4", 14),
    (b"a5", 15),
    (b"a6", 16),
    (b"a7", 17),
    (b"s2", 18),
    (b"s3", 19),
    (b"s4", 20),
    (b"s5", 21),
    (b"s6", 22),
    (b"s7", 23),
    (b"s8", 24),
    (b"s9", 25),
    (b"s10", 26),
    (b"s11", 27),
    (b"t3", 28),
    (b"t4", 29),
    (b"t5", 30),
    (b"t6", 31),
];

/// The register of a number, of which the low five bits count.
pub fn numbered(number: u8) -> Register
    ensures { result ≡ numbered number }
{
    Register {
        number: number % 32,
    }
}

fn number_in(names: &[(&[u8], u8)], text: &[u8]) -> Option<u8>
    ensures { result ≡ number_in (map row names.now) text.now }
{
    for (name, number) in names {
        if *name == text {
            return Some(*number);
        }
    }
    None
}

fn find_number(text: &[u8]) -> Option<u8>
    ensures { result ≡ number_of text.now }
{
    number_in(&NAMES, text)
}

/// The register of a name.
#[tactic(auto, unfolding(crate::specs::Names::register_of))]
pub fn register(text: &[u8]) -> Option<Register>
    ensures { result ≡ register_of text.now }
{
    let number = find_number(text)?;
    Some(numbered(number))
}
