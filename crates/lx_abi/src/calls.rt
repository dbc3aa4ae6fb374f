//! The calls of the profile: numbers, names, classes and how their arguments are shown.

ghost use Rattle.std.specs.Prelude.{◌≡◌, ◌==◌, option_map, find, map};
ghost use Rattle.std.specs.Option.{option_copied};
ghost use Rattle.std.specs.Str.{bytes_eq};
ghost use Rattle.lx_abi.specs.Calls as spec;
ghost use Rattle.lx_abi.specs.Effects.{calm, waits};
ghost use Rattle.lx_abi.specs.Tables.{call_row};

use crate::effects::Effects;
use crate::sys;
use bitflags::Flags;

/// A class of calls, as `%file` of strace(1).
#[derive(Clone, Copy, Debug, PartialEq, Eq)]
pub enum Class {
    File,
    Descriptor,
    Process,
    Signal,
    Memory,
}

/// How one argument of a call is shown. Flags are names joined by `|`, the rest in hex.
#[derive(Clone, Copy, Debug, PartialEq, Eq)]
pub enum Argument {
    /// The low 32 bits, signed.
    Int,
    /// Signed.
    Long,
    Unsigned,
    /// `NULL` or hex.
    Pointer,
    Hex,
    /// A file mode, with a leading 0.
    Octal,
    /// A path that ends with NUL.
    Path,
    /// As many bytes as the last argument or, after the call, its result says.
    Bytes,
    /// `AT_FDCWD` or a descriptor.
    Directory,
    SignalNumber,
    OpenFlags,
    /// The mode of a new file, shown with `O_CREAT` alone.
    CreationMode,
    CloseOnExec,
    StatFlags,
    Protection,
    MapFlags,
    WaitOptions,
    UnlinkFlags,
    /// What an offset is counted from.
    Whence,
    /// What rt_sigprocmask does with the set.
    MaskChange,
    /// A list of texts that ends with NULL.
    Strings,
    /// The address of such a list, and how many it has.
    Environment,
    /// A struct sigaction.
    Action,
    SignalSet,
    /// A struct stat.
    Stat,
    /// The two descriptors of a pipe.
    DescriptorPair,
    WaitStatus,
    /// The mask in the signal frame on the stack; no register has it.
    FrameMask,
    /// The stack of a child, which is the second register.
    ChildStack,
    /// The flags of clone, which are the first register.
    CloneFlags,
}

impl Class {
    /// The class of this name, which stands behind the `%` (strace(1), Filtering).
    pub fn from_name(name: &str) -> Option<Class>
        ensures { result ≡ spec.class_named name.now }
    {
        match name {
            "file" => Some(Class::File),
            "desc" => Some(Class::Descriptor),
            "process" => Some(Class::Process),
            "signal" => Some(Class::Signal),
            "memory" => Some(Class::Memory),
            _ => None,
        }
    }
}

/// Number, name, classes, effects, the arguments of the entry text, and those shown once the call has returned.
pub type Row = (
    u64,
    &'static str,
    &'static [Class],
    Effects,
    &'static [Argument],
    &'static [Argument],
);

/// A row for each line.
macro_rules! calls {
    ($(
        $number:ident $name:literal [$($class:ident),*] [$($effect:ident),*] [$($entry:ident),*] [$($rest:ident),*];
    )*) => {
        [$((
            sys::$number,
            $name,
            &[$(Class::$class),*],
            Effects(0 $(| Effects::$effect.0)*),
            &[$(Argument::$entry),*],
            &[$(Argument::$rest),*],
        )),*]
    };
}

static CALLS: [Row; 31] = calls! {
    SYS_GETCWD "getcwd" [File] [] [] [Path, Unsigned];
    SYS_DUP "dup" [Descriptor] [] [Int] [];
    SYS_DUP3 "dup3" [Descriptor] [] [Int, Int, CloseOnExec] [];
    SYS_MKDIRAT "mkdirat" [File, Descriptor] [] [Directory, Path, Octal] [];
    SYS_UNLINKAT "unlinkat" [File, Descriptor] [] [Directory, Path, UnlinkFlags] [];
    SYS_FTRUNCATE "ftruncate" [Descriptor] [] [Int, Long] [];
    SYS_CHDIR "chdir" [File] [] [Path] [];
    SYS_OPENAT "openat" [File, Descriptor] [] [Directory, Path, OpenFlags, CreationMode] [];
    SYS_CLOSE "close" [Descriptor] [] [Int] [];
    SYS_PIPE2 "pipe2" [Descriptor] [] [] [DescriptorPair, CloseOnExec];
    SYS_LSEEK "lseek" [Descriptor] [] [Int, Long, Whence] [];
    SYS_READ "read" [Descriptor] [WAITS] [Int] [Bytes, Unsigned];
    SYS_WRITE "write" [Descriptor] [WAITS] [Int, Bytes, Unsigned] [];
    SYS_NEWFSTATAT "newfstatat" [File, Descriptor] [] [Directory, Path] [Stat, StatFlags];
    SYS_FSTAT "fstat" [Descriptor] [] [Int] [Stat];
    SYS_EXIT "exit" [Process] [EXITS] [Int] [];
    SYS_EXIT_GROUP "exit_group" [Process] [EXITS] [Int] [];
    SYS_SCHED_YIELD "sched_yield" [] [CALM] [] [];
    SYS_KILL "kill" [Signal] [] [Int, SignalNumber] [];
    SYS_RT_SIGACTION "rt_sigaction" [Signal] [CALM] [SignalNumber, Action] [Action, Unsigned];
    SYS_RT_SIGPROCMASK "rt_sigprocmask" [Signal] [CALM] [MaskChange, SignalSet] [SignalSet, Unsigned];
    SYS_RT_SIGRETURN "rt_sigreturn" [Signal] [CALM] [FrameMask] [];
    SYS_GETPID "getpid" [] [CALM] [] [];
    SYS_GETPPID "getppid" [] [CALM] [] [];
    SYS_GETTID "gettid" [] [CALM] [] [];
    SYS_BRK "brk" [Memory] [HEX, CALM] [Pointer] [];
    SYS_MUNMAP "munmap" [Memory] [CALM] [Pointer, Unsigned] [];
    SYS_CLONE "clone" [Process] [FORKS] [ChildStack, CloneFlags] [];
    SYS_EXECVE "execve" [File, Process] [EXECS] [Path, Strings, Environment] [];
    SYS_MMAP "mmap" [Descriptor, Memory] [HEX, CALM] [Pointer, Unsigned, Protection, MapFlags, Int, Hex] [];
    SYS_WAIT4 "wait4" [Process] [WAITS, CALM] [Int] [WaitStatus, WaitOptions, Pointer];
};

/// Every call, by rising numbers.
#[tactic(auto, unfolding(crate::specs::Calls::calls))]
pub fn rows() -> &'static [Row]
    ensures { map call_row result.now ≡ spec.calls }
{
    &CALLS
}

/// How a call's arguments are shown: those of the text of its entry, and those that wait for its result.
#[derive(Clone, Copy, Debug, PartialEq, Eq)]
pub struct Format {
    pub entry: &'static [Argument],
    pub rest: &'static [Argument],
}

/// The number of the call with this name.
pub fn call_number(name: &str) -> Option<u64>
    ensures { result ≡ spec.call_number name.now }
{
    row_named(rows(), name).map(|row| row.0)
}

/// The name of the call with this number.
pub fn call_name(number: u64) -> Option<&'static str>
    ensures { option_map (λ t. t.now) result ≡ spec.call_name number }
{
    row_numbered(rows(), number).map(|row| row.1)
}

/// The classes that the call with this number is in.
pub fn call_classes(number: u64) -> Option<&'static [Class]>
    ensures { option_map (λ c. c.now) result ≡ spec.call_classes number }
{
    row_numbered(rows(), number).map(|row| row.2)
}

/// How the arguments of the call with this number are shown.
pub fn call_format(number: u64) -> Option<Format>
    ensures { option_map (λ f. (f.entry.now, f.rest.now)) result ≡ spec.call_format number }
{
    row_numbered(rows(), number).map(|row| Format {
        entry: row.4,
        rest: row.5,
    })
}

/// The call with this number has all of these effects.
pub fn has_effects(number: u64, effects: Effects) -> bool
    ensures { result ≡ spec.has_effects number effects.0 }
{
    effects_in(rows(), number, effects)
}

/// [`Effects::CALM`] without a walk through the table, for each turn.
#[tactic(auto, unfolding(crate::specs::Calls::has_effects, crate::specs::Calls::calls))]
pub fn is_calm(number: u64) -> bool
    ensures { result ≡ spec.has_effects number calm }
{
    matches!(
        number,
        sys::SYS_SCHED_YIELD
            | sys::SYS_RT_SIGACTION
            | sys::SYS_RT_SIGPROCMASK
            | sys::SYS_RT_SIGRETURN
            | sys::SYS_GETPID
            | sys::SYS_GETPPID
            | sys::SYS_GETTID
            | sys::SYS_BRK
            | sys::SYS_MUNMAP
            | sys::SYS_MMAP
            | sys::SYS_WAIT4
    )
}

/// [`Effects::WAITS`] without a walk through the table, for each turn.
#[tactic(auto, unfolding(crate::specs::Calls::has_effects, crate::specs::Calls::calls))]
pub fn may_wait(number: u64) -> bool
    ensures { result ≡ spec.has_effects number waits }
{
    matches!(number, sys::SYS_READ | sys::SYS_WRITE | sys::SYS_WAIT4)
}

fn effects_in(rows: &[Row], number: u64, effects: Effects) -> bool
    ensures { result ≡ spec.some_has (map call_row rows.now) number effects.0 }
{
    rows.iter()
        .any(|row| row.3.contains(effects) && number == row.0)
}

fn row_named<'a>(rows: &'a [Row], name: &str) -> Option<&'a Row>
    ensures { option_map call_row (option_copied result)
        ≡ find (λ row. bytes_eq row.1 name.now) (map call_row rows.now) }
{
    rows.iter().find(|row| row.1 == name)
}

fn row_numbered(rows: &[Row], number: u64) -> Option<&Row>
    ensures { option_map call_row (option_copied result)
        ≡ find (λ row. row.0 == number) (map call_row rows.now) }
{
    rows.iter().find(|row| row.0 == number)
}
