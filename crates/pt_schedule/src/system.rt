//! What a schedule sees of a host.

ghost use Rattle.std.specs.Prelude.{◌≡◌};
ghost use Rattle.pt_schedule.specs.Cycle.{IsNextPlace};

/// A host or a kernel, whose events a schedule orders.
pub trait Schedulable {
    ghost use Rattle.pt_schedule.specs.Schedules.{Readiness};

    ghost readiness: { Self → Readiness };

    /// A request is pending, and would be answered.
    fn is_ready(&self) -> bool
        ensures { result ≡ (readiness self.now).ready };

    /// A turn of the process would run an instruction or change its mode.
    fn is_able(&self, pid: u32) -> bool
        ensures { result ≡ (readiness self.now).able pid };

    /// A later process that may be able: none before it is; none where no later one is able.
    fn next_after(&self, pid: u32) -> Option<u32>
        ensures { IsNextPlace (readiness self.now).able pid result };

    /// Pids are 1 to this one.
    fn last_pid(&self) -> u16
        ensures { result ≡ (readiness self.now).last_pid };

    /// The process stands where its call is finished.
    fn has_finished(&self, pid: u32) -> bool
        ensures { result ≡ (readiness self.now).finished pid };
}
