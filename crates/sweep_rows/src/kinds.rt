//! In which ways a call fails.

use crate::worlds::World;
use lx_abi::Errno;

/// How a call fails.
#[derive(Clone, Copy, Debug, PartialEq, Eq)]
pub enum Kind {
    /// It has the error for its result, and isn't done.
    Undone(Errno),
    /// It is done, and then has the error for its result.
    Done(Errno),
    /// It is done with this count, a2, in the place of the one that its process asks for (read(2), write(2)).
    Short(u64),
    /// Its process is killed where it is entered, and others go on.
    Killed,
    /// Everything ends where it is entered.
    Stop,
    /// From there on each call that the world has fail has its error for its result, of any process, and isn't done.
    World(World),
}

impl Kind {
    ghost use Rattle.std.specs.Prelude.{◌≡◌};
    ghost use Rattle.sweep_rows.specs.Kinds.{error_of, is_stop, is_undone, is_world};

    /// The error that the call has.
    pub fn error(self) -> Option<Errno>
        ensures { result ≡ error_of self }
    {
        match self {
            Kind::Undone(error) | Kind::Done(error) => Some(error),
            Kind::Short(_) | Kind::Killed | Kind::Stop | Kind::World(_) => None,
        }
    }

    /// The call has an error, and isn't done.
    pub fn is_undone(self) -> bool
        ensures { result ≡ is_undone self }
    {
        matches!(self, Kind::Undone(_))
    }

    /// Everything ends there.
    pub fn is_stop(self) -> bool
        ensures { result ≡ is_stop self }
    {
        matches!(self, Kind::Stop)
    }

    /// It is one of every process.
    pub fn is_world(self) -> bool
        ensures { result ≡ is_world self }
    {
        matches!(self, Kind::World(_))
    }
}
