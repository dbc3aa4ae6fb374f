//! How a run is traced.

ghost use Rattle.std.specs.Prelude.{◌≤◌, ◌^◌};

/// Threads that turn a run's processes, and the most turns and requests together.
#[derive(Clone, Copy, Debug)]
pub struct Workers {
    pub count: u8,
    pub limit: u64,
    pub ghost some: { 1 ≤ count },
    pub ghost few: { count ≤ 8 },
    pub ghost some_events: { 1 ≤ limit },
    pub ghost few_events: { limit ≤ 2 ^ 39 },
}

/// How a run is traced.
#[derive(Clone, Copy, Debug)]
pub struct TraceOptions {
    /// Children are traced too.
    pub follow: bool,
    pub string_limit: u32,
    pub ghost limit_in_range: { string_limit ≤ 4096 },
    /// The column of results.
    pub column: u32,
    /// The most events.
    pub limit: u64,
    /// Threads, where they make the turns.
    pub workers: Option<Workers>,
    /// For how many milliseconds a host is waited for.
    pub patience: Option<u32>,
    /// Faults are explained.
    pub explain: bool,
}
