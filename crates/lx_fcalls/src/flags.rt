//! Flags of calls (fcntl.h, riscv64).

ghost use Rattle.std.specs.Prelude.{◌≡◌, ◌<◌};
ghost use Rattle.lx_fcalls.specs.Flags.{has as has_flag};

pub const O_CREAT: u64 = 0x40;

pub const O_EXCL: u64 = 0x80;

pub const O_TRUNC: u64 = 0x200;

pub const O_APPEND: u64 = 0x400;

pub const O_CLOEXEC: u64 = 0x8_0000;

/// The access and the flags above.
pub const OPEN_FLAGS: u64 = 0x8_06c3;

pub const AT_REMOVEDIR: u64 = 0x200;

pub const AT_SYMLINK_NOFOLLOW: u64 = 0x100;

/// -100, in 32 bits: a relative path begins in the working directory.
pub const AT_FDCWD: u32 = 0xffff_ff9c;

/// A flag of one bit is set.
pub fn has(flags: u64, bit: u64) -> bool
    requires { 0 < bit }
    ensures { result ≡ has_flag flags bit }
{
    (flags / bit) % 2 == 1
}
