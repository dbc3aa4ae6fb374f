//! Arithmetic on registers.
ghost use Rattle.std.specs.Prelude.{◌≡◌, ◌+◌, ◌%◌, ◌^◌};
ghost use Rattle.rv_isa.specs.Fields.{field};
ghost use Rattle.rv_hart.specs.Arithmetic.{word_extended, operated, operated_word, of_immediate, of_shift, of_shift_word, taken};

use rv_isa::{Condition, ImmediateOperation, Operation, Shift, WordOperation};

/// An immediate as 64 bits, with its sign.
pub(crate) fn extend(immediate: i32) -> u64
    ensures { result ≡ field 63 immediate }
{
    i64::from(immediate).cast_unsigned()
}

/// A word of 32 bits as one of 64, with its sign.
pub(crate) fn extend_word(word: u32) -> u64
    ensures { result ≡ word_extended word }
{
    i64::from(word.cast_signed()).cast_unsigned()
}

fn low_word(value: u64) -> u32
    ensures { result ≡ value % 2 ^ 32 }
{
    (value & 0xffff_ffff) as u32
}

#[inline(always)]
pub(crate) fn operate(operation: Operation, a: u64, b: u64) -> u64
    ensures { result ≡ operated operation a b }
{
    match operation {
        Operation::Add => a.wrapping_add(b),
        Operation::Sub => a.wrapping_sub(b),
        Operation::ShiftLeft => a << (b & 63),
        Operation::SetLess => u64::from(a.cast_signed() < b.cast_signed()),
        Operation::SetLessUnsigned => u64::from(a < b),
        Operation::Xor => a ^ b,
        Operation::ShiftRightLogical => a >> (b & 63),
        Operation::ShiftRightArithmetic => (a.cast_signed() >> (b & 63)).cast_unsigned(),
        Operation::Or => a | b,
        Operation::And => a & b,
    }
}

pub(crate) fn operate_immediate(operation: ImmediateOperation, a: u64, b: u64) -> u64
    ensures { result ≡ operated (of_immediate operation) a b }
{
    match operation {
        ImmediateOperation::Add => a.wrapping_add(b),
        ImmediateOperation::SetLess => u64::from(a.cast_signed() < b.cast_signed()),
        ImmediateOperation::SetLessUnsigned => u64::from(a < b),
        ImmediateOperation::Xor => a ^ b,
        ImmediateOperation::Or => a | b,
        ImmediateOperation::And => a & b,
    }
}

pub(crate) fn shift(shift: Shift, a: u64, amount: u32) -> u64
    ensures { result ≡ operated (of_shift shift) a amount }
{
    match shift {
        Shift::Left => a << (amount & 63),
        Shift::RightLogical => a >> (amount & 63),
        Shift::RightArithmetic => (a.cast_signed() >> (amount & 63)).cast_unsigned(),
    }
}

pub(crate) fn add_word(a: u64, b: u64) -> u64
    ensures { result ≡ word_extended (a + b) }
{
    extend_word(low_word(a.wrapping_add(b)))
}

#[inline(always)]
pub(crate) fn operate_word(operation: WordOperation, a: u64, b: u64) -> u64
    ensures { result ≡ operated_word operation a b }
{
    let word = low_word(a);
    let amount = b & 31;
    match operation {
        WordOperation::Add => add_word(a, b),
        WordOperation::Sub => extend_word(low_word(a.wrapping_sub(b))),
        WordOperation::ShiftLeft => extend_word(low_word(a << amount)),
        WordOperation::ShiftRightLogical => extend_word(word >> amount),
        WordOperation::ShiftRightArithmetic => {
            extend_word((word.cast_signed() >> amount).cast_unsigned())
        }
    }
}

pub(crate) fn shift_word(shift: Shift, a: u64, amount: u32) -> u64
    ensures { result ≡ operated_word (of_shift_word shift) a amount }
{
    let operation = match shift {
        Shift::Left => WordOperation::ShiftLeft,
        Shift::RightLogical => WordOperation::ShiftRightLogical,
        Shift::RightArithmetic => WordOperation::ShiftRightArithmetic,
    };
    operate_word(operation, a, u64::from(amount))
}

/// Whether a branch on two registers is taken.
#[inline(always)]
pub(crate) fn holds(condition: Condition, a: u64, b: u64) -> bool
    ensures { result ≡ taken condition a b }
{
    match condition {
        Condition::Equal => a == b,
        Condition::NotEqual => a != b,
        Condition::Less => a.cast_signed() < b.cast_signed(),
        Condition::GreaterEqual => a.cast_signed() >= b.cast_signed(),
        Condition::LessUnsigned => a < b,
        Condition::GreaterEqualUnsigned => a >= b,
    }
}
