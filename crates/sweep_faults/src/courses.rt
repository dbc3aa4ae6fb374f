//! What a process has done last, and asked for last.

ghost use Rattle.std.specs.Prelude.{◌≡◌};
ghost use Rattle.sweep_faults.specs.Courses.{is_done, with_end, with_entry};

use lx_abi::Call;

/// The place of a count among the arguments of read and write.
const A2_ARGUMENT: usize = 2;

/// What a process has done so far.
#[derive(Clone, Copy, Debug, PartialEq, Eq)]
pub struct Course {
    /// The number of the call that it has done last.
    pub done: Option<u64>,
    /// The count, a2, that its last entry into a call asks for.
    pub asked: u64,
}

/// That of a process that has entered no call.
pub(crate) const FIRST_COURSE: Course = Course {
    done: None,
    asked: 0,
};

impl Course {
    pub(crate) fn entered(self, call: &Call) -> Course
        ensures { result ≡ with_entry call.now self }
    {
        Course {
            asked: call.arguments[A2_ARGUMENT],
            ..self
        }
    }

    pub(crate) fn ended(self, call: &Call) -> Course
        ensures { result ≡ with_end call.now self }
    {
        Course {
            done: Some(call.number),
            ..self
        }
    }

    /// The call is the one that it has done last.
    pub(crate) fn is_done(self, number: u64) -> bool
        ensures { result ≡ is_done number self.done }
    {
        match self.done {
            Some(done) => done == number,
            None => false,
        }
    }
}
