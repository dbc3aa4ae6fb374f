//! The table of errors, a line a call.

ghost use Rattle.std.specs.Prelude.{◌≡◌, ◌==◌, map, find, option_map};
ghost use Rattle.std.specs.Option.{option_copied};
ghost use Rattle.lx_abi.specs.Calls.{calls};
ghost use Rattle.call_errors.specs.Errors.{call_errors, error_row, errors_listed};

use lx_abi::sys;

// Numbers of errors, by their names in errno(3).

const EPERM: u16 = 1;

const ENOENT: u16 = 2;

const ESRCH: u16 = 3;

const EINTR: u16 = 4;

const EIO: u16 = 5;

const ECHILD: u16 = 10;

const EAGAIN: u16 = 11;

const ENOMEM: u16 = 12;

const EACCES: u16 = 13;

const EBUSY: u16 = 16;

const EEXIST: u16 = 17;

const ENFILE: u16 = 23;

const EMFILE: u16 = 24;

const ETXTBSY: u16 = 26;

const EFBIG: u16 = 27;

const ENOSPC: u16 = 28;

const ESPIPE: u16 = 29;

const EROFS: u16 = 30;

const EMLINK: u16 = 31;

const EPIPE: u16 = 32;

const EOVERFLOW: u16 = 75;

const EDQUOT: u16 = 122;

/// A call's number, and those of its errors.
pub type Row = (u64, &'static [u16]);

/// A row for each line.
macro_rules! errors {
    ($($number:ident [$($error:ident),*];)*) => {
        [$((sys::$number, &[$($error),*])),*]
    };
}

static ERRORS: [Row; 31] = errors! {
    SYS_GETCWD [EACCES, ENOENT, ENOMEM];
    SYS_DUP [EMFILE];
    SYS_DUP3 [EBUSY, EINTR, EMFILE];
    SYS_MKDIRAT [EACCES, EDQUOT, EEXIST, EMLINK, ENOENT, ENOMEM, ENOSPC, EPERM, EROFS];
    SYS_UNLINKAT [EACCES, EBUSY, EIO, ENOENT, ENOMEM, EPERM, EROFS];
    SYS_FTRUNCATE [EFBIG, EINTR, EIO, EPERM];
    SYS_CHDIR [EACCES, EIO, ENOENT, ENOMEM];
    SYS_OPENAT [EACCES, EDQUOT, EEXIST, EINTR, EMFILE, ENFILE, ENOENT, ENOMEM, ENOSPC, EPERM, EROFS, ETXTBSY];
    SYS_CLOSE [EDQUOT, EINTR, EIO, ENOSPC];
    SYS_PIPE2 [EMFILE, ENFILE];
    SYS_LSEEK [EOVERFLOW, ESPIPE];
    SYS_READ [EAGAIN, EINTR, EIO];
    SYS_WRITE [EAGAIN, EDQUOT, EFBIG, EINTR, EIO, ENOSPC, EPERM, EPIPE];
    SYS_NEWFSTATAT [EACCES, ENOENT, ENOMEM, EOVERFLOW];
    SYS_FSTAT [ENOMEM, EOVERFLOW];
    SYS_EXIT [];
    SYS_EXIT_GROUP [];
    SYS_SCHED_YIELD [];
    SYS_KILL [EPERM, ESRCH];
    SYS_RT_SIGACTION [];
    SYS_RT_SIGPROCMASK [];
    SYS_RT_SIGRETURN [];
    SYS_GETPID [];
    SYS_GETPPID [];
    SYS_GETTID [];
    SYS_BRK [ENOMEM];
    SYS_MUNMAP [ENOMEM];
    SYS_CLONE [EAGAIN, ENOMEM];
    SYS_EXECVE [EACCES, EAGAIN, EIO, EMFILE, ENFILE, ENOENT, ENOMEM, EPERM, ETXTBSY];
    SYS_MMAP [EACCES, EAGAIN, ENFILE, ENOMEM, EPERM];
    SYS_WAIT4 [ECHILD, EINTR];
};

/// Each call of the profile with its errors, by rising numbers.
#[tactic(auto, unfolding(crate::specs::Errors::call_errors))]
pub fn rows() -> &'static [Row]
    ensures { map error_row result.now ≡ call_errors }
{
    &ERRORS
}

fn row_numbered(rows: &[Row], number: u64) -> Option<&Row>
    ensures { option_map error_row (option_copied result)
        ≡ find (λ row. row.0 == number) (map error_row rows.now) }
{
    rows.iter().find(|row| row.0 == number)
}

/// The numbers of the errors of the call with this number; none of one that is no call of the profile.
pub fn errors_of(number: u64) -> &'static [u16]
    ensures { result.now ≡ errors_listed number }
{
    match row_numbered(rows(), number) {
        Some(row) => row.1,
        None => &[],
    }
}

/// Each call of the profile has its line.
pub fn each_call_has_its_errors()
    ensures { map (λ row. row.0) call_errors ≡ map (λ row. row.0) calls }
{}
