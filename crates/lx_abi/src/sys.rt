//! Numbers of the calls, by the names of <sys/syscall.h> (riscv64).

pub const SYS_GETCWD: u64 = 17;

pub const SYS_DUP: u64 = 23;

pub const SYS_DUP3: u64 = 24;

pub const SYS_MKDIRAT: u64 = 34;

pub const SYS_UNLINKAT: u64 = 35;

pub const SYS_FTRUNCATE: u64 = 46;

pub const SYS_CHDIR: u64 = 49;

pub const SYS_OPENAT: u64 = 56;

pub const SYS_CLOSE: u64 = 57;

pub const SYS_PIPE2: u64 = 59;

pub const SYS_LSEEK: u64 = 62;

pub const SYS_READ: u64 = 63;

pub const SYS_WRITE: u64 = 64;

pub const SYS_NEWFSTATAT: u64 = 79;

pub const SYS_FSTAT: u64 = 80;

pub const SYS_EXIT: u64 = 93;

pub const SYS_EXIT_GROUP: u64 = 94;

pub const SYS_SCHED_YIELD: u64 = 124;

pub const SYS_KILL: u64 = 129;

pub const SYS_RT_SIGACTION: u64 = 134;

pub const SYS_RT_SIGPROCMASK: u64 = 135;

pub const SYS_RT_SIGRETURN: u64 = 139;

pub const SYS_GETPID: u64 = 172;

pub const SYS_GETPPID: u64 = 173;

pub const SYS_GETTID: u64 = 178;

pub const SYS_BRK: u64 = 214;

pub const SYS_MUNMAP: u64 = 215;

pub const SYS_CLONE: u64 = 220;

pub const SYS_EXECVE: u64 = 221;

pub const SYS_MMAP: u64 = 222;

pub const SYS_WAIT4: u64 = 260;
