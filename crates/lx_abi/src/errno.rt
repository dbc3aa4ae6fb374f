//! The errors of errno(3).

ghost use Rattle.std.specs.Prelude.{◌≡◌, ◌==◌, ◌&&◌, IsTrue, nat_lt, option_map, find, map};
ghost use Rattle.std.specs.Option.{option_copied};
ghost use Rattle.std.specs.Str.{bytes_eq};
ghost use Rattle.lx_abi.specs.Tables.{error_row};

use crate::errno_table::{Row, rows};

/// An error, by its number: 1 to 4095, never 0.
#[derive(Clone, Copy, Debug, PartialEq, Eq)]
pub struct Errno {
    pub number: u16,
    pub ghost in_range: { IsTrue (nat_lt 0 number && nat_lt number 4096) },
}

impl Errno {
    ghost use Rattle.lx_abi.specs.Errors.{error_word, errno_numbered, errno_number, errno_name, errno_text};

    pub const ENOENT: Errno = Errno { number: 2 };

    pub const ESRCH: Errno = Errno { number: 3 };

    pub const EINTR: Errno = Errno { number: 4 };

    pub const EIO: Errno = Errno { number: 5 };

    pub const E2BIG: Errno = Errno { number: 7 };

    pub const ENOEXEC: Errno = Errno { number: 8 };

    pub const EBADF: Errno = Errno { number: 9 };

    pub const ECHILD: Errno = Errno { number: 10 };

    pub const EAGAIN: Errno = Errno { number: 11 };

    pub const ENOMEM: Errno = Errno { number: 12 };

    pub const EACCES: Errno = Errno { number: 13 };

    pub const EFAULT: Errno = Errno { number: 14 };

    pub const EBUSY: Errno = Errno { number: 16 };

    pub const EEXIST: Errno = Errno { number: 17 };

    pub const ENOTDIR: Errno = Errno { number: 20 };

    pub const EISDIR: Errno = Errno { number: 21 };

    pub const EINVAL: Errno = Errno { number: 22 };

    pub const EMFILE: Errno = Errno { number: 24 };

    pub const EFBIG: Errno = Errno { number: 27 };

    pub const ENOSPC: Errno = Errno { number: 28 };

    pub const ESPIPE: Errno = Errno { number: 29 };

    pub const EPIPE: Errno = Errno { number: 32 };

    pub const ERANGE: Errno = Errno { number: 34 };

    pub const ENAMETOOLONG: Errno = Errno { number: 36 };

    pub const ENOSYS: Errno = Errno { number: 38 };

    pub const ENOTEMPTY: Errno = Errno { number: 39 };

    /// It has this number.
    pub fn is(self, number: u32) -> bool
        ensures { result ≡ (number == self.number) }
    {
        number == u32::from(self.number)
    }

    /// What a call that fails leaves in a0.
    pub fn word(self) -> u64
        ensures { result ≡ error_word self.number }
    {
        0u64.wrapping_sub(u64::from(self.number))
    }

    /// The error with this number, 1 to 4095.
    pub fn from_number(number: u64) -> Option<Errno>
        ensures { result ≡ errno_numbered number }
    {
        if number == 0 || number > 4095 {
            return None;
        }
        Some(Errno {
            number: number as u16,
        })
    }

    /// The error with this name, as `EIO`.
    pub fn from_name(name: &str) -> Option<Errno>
        ensures { option_map (λ e. e.number) result ≡ errno_number name.now }
    {
        let row = row_named(rows(), name)?;
        Errno::from_number(u64::from(row.0))
    }

    /// Its name, as `EIO`; 41 and 58, say, have none.
    pub fn name(self) -> Option<&'static str>
        ensures { option_map (λ t. t.now) result ≡ errno_name self.number }
    {
        name_in(rows(), self.number)
    }

    /// What strerror(3) says of it, as `Input/output error`; 41 and 58, say, have none.
    pub fn text(self) -> Option<&'static str>
        ensures { option_map (λ t. t.now) result ≡ errno_text self.number }
    {
        text_in(rows(), self.number)
    }
}

fn row_named<'a>(rows: &'a [Row], name: &str) -> Option<&'a Row>
    ensures { option_map error_row (option_copied result)
        ≡ find (λ row. bytes_eq row.1 name.now) (map error_row rows.now) }
{
    rows.iter().find(|row| row.1 == name)
}

/// The first row with this number.
fn row_numbered(rows: &[Row], number: u16) -> Option<&Row>
    ensures { option_map error_row (option_copied result)
        ≡ find (λ row. row.0 == number) (map error_row rows.now) }
{
    rows.iter().find(|row| row.0 == number)
}

fn name_in(rows: &[Row], number: u16) -> Option<&'static str>
    ensures { option_map (λ t. t.now) result
        ≡ option_map (λ row. row.1) (find (λ row. row.0 == number) (map error_row rows.now)) }
{
    row_numbered(rows, number).map(|row| row.1)
}

fn text_in(rows: &[Row], number: u16) -> Option<&'static str>
    ensures { option_map (λ t. t.now) result
        ≡ option_map (λ row. row.2) (find (λ row. row.0 == number) (map error_row rows.now)) }
{
    row_numbered(rows, number).map(|row| row.2)
}
