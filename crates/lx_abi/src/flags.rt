//! Flags and numbers that C's headers name, as calls take them in registers; a line each.

ghost use Rattle.std.specs.Prelude.{◌≡◌, ◌<◌, IsTrue, map};
ghost use Rattle.std.specs.List.{list_all};
ghost use Rattle.lx_abi.specs.Flags as spec;

/// A number, of a flag a power of two, and its name.
pub type Named = (u64, &'static str);

pub const O_RDONLY: Named = (0, "O_RDONLY");

pub const O_WRONLY: Named = (1, "O_WRONLY");

pub const O_RDWR: Named = (2, "O_RDWR");

pub const O_CREAT: Named = (0x40, "O_CREAT");

pub const O_EXCL: Named = (0x80, "O_EXCL");

pub const O_TRUNC: Named = (0x200, "O_TRUNC");

pub const O_APPEND: Named = (0x400, "O_APPEND");

pub const O_CLOEXEC: Named = (0x8_0000, "O_CLOEXEC");

pub const AT_SYMLINK_NOFOLLOW: Named = (0x100, "AT_SYMLINK_NOFOLLOW");

pub const AT_REMOVEDIR: Named = (0x200, "AT_REMOVEDIR");

pub const SEEK_SET: Named = (0, "SEEK_SET");

pub const SEEK_CUR: Named = (1, "SEEK_CUR");

pub const SEEK_END: Named = (2, "SEEK_END");

pub const PROT_READ: Named = (1, "PROT_READ");

pub const PROT_WRITE: Named = (2, "PROT_WRITE");

pub const PROT_EXEC: Named = (4, "PROT_EXEC");

pub const MAP_PRIVATE: Named = (2, "MAP_PRIVATE");

pub const MAP_ANONYMOUS: Named = (0x20, "MAP_ANONYMOUS");

pub const WNOHANG: Named = (1, "WNOHANG");

pub const WSTOPPED: Named = (2, "WSTOPPED");

pub const WCONTINUED: Named = (8, "WCONTINUED");

pub const SIG_BLOCK: Named = (0, "SIG_BLOCK");

pub const SIG_UNBLOCK: Named = (1, "SIG_UNBLOCK");

pub const SIG_SETMASK: Named = (2, "SIG_SETMASK");

pub const SIG_DFL: Named = (0, "SIG_DFL");

pub const SIG_IGN: Named = (1, "SIG_IGN");

pub const SA_RESTART: Named = (0x1000_0000, "SA_RESTART");

pub const SA_SIGINFO: Named = (4, "SA_SIGINFO");

pub const SA_NODEFER: Named = (0x4000_0000, "SA_NODEFER");

pub const S_IFIFO: Named = (0o010000, "S_IFIFO");

pub const S_IFCHR: Named = (0o020000, "S_IFCHR");

pub const S_IFDIR: Named = (0o040000, "S_IFDIR");

pub const S_IFREG: Named = (0o100000, "S_IFREG");

/// How open(2) opens: the low two bits of its flags.
pub static ACCESS_MODES: [Named; 3] = [O_RDONLY, O_WRONLY, O_RDWR];

pub static OPEN_FLAGS: [Named; 5] = [O_CREAT, O_EXCL, O_TRUNC, O_APPEND, O_CLOEXEC];

/// Of dup3(2) and pipe2(2).
pub static DESCRIPTOR_FLAGS: [Named; 1] = [O_CLOEXEC];

/// Of fstatat(2).
pub static STAT_FLAGS: [Named; 1] = [AT_SYMLINK_NOFOLLOW];

pub static UNLINK_FLAGS: [Named; 1] = [AT_REMOVEDIR];

/// What an offset of lseek(2) is counted from.
pub static WHENCES: [Named; 3] = [SEEK_SET, SEEK_CUR, SEEK_END];

/// Of mmap(2).
pub static PROTECTIONS: [Named; 3] = [PROT_READ, PROT_WRITE, PROT_EXEC];

pub static MAP_FLAGS: [Named; 2] = [MAP_PRIVATE, MAP_ANONYMOUS];

pub static WAIT_OPTIONS: [Named; 3] = [WNOHANG, WSTOPPED, WCONTINUED];

/// What sigprocmask(2) does with its set.
pub static MASK_CHANGES: [Named; 3] = [SIG_BLOCK, SIG_UNBLOCK, SIG_SETMASK];

/// What stands in the place of a handler.
pub static HANDLERS: [Named; 2] = [SIG_DFL, SIG_IGN];

/// Of sigaction(2).
pub static ACTION_FLAGS: [Named; 3] = [SA_RESTART, SA_SIGINFO, SA_NODEFER];

/// The type of a file in st_mode of stat(2), without its permissions.
pub static FILE_TYPES: [Named; 4] = [S_IFIFO, S_IFCHR, S_IFDIR, S_IFREG];

/// The flag is set.
pub fn has(word: u64, flag: Named) -> bool
    requires { 0 < flag.0 }
    ensures { result ≡ spec.has word (spec.named flag.entry) }
{
    word / flag.0 % 2 == 1
}

/// What is set beside these flags.
#[tactic(auto, unfolding(crate::specs::Flags::left_over))]
pub fn left_over(word: u64, flags: &[Named]) -> u64
    requires { IsTrue (list_all spec.is_flag flags.now) }
    ensures { result ≡ spec.left_over word (map spec.named flags.now) }
{
    match flags {
        [] => word,
        [flag, more @ ..] => {
            if has(word, *flag) {
                left_over(word - flag.0, more)
            } else {
                left_over(word, more)
            }
        }
    }
}
