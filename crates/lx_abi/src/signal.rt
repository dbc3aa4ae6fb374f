//! The signals of signal(7).

ghost use Rattle.std.specs.Prelude.{◌≡◌, ◌==◌, ◌&&◌, ◌<◌, ◌≤◌, IsTrue, nat_lt, option_map, find, map, length};
ghost use Rattle.std.specs.Option.{option_copied};
ghost use Rattle.std.specs.Str.{bytes_eq};
ghost use Rattle.lx_abi.specs.Tables.{signal_row, counts_from};

/// Number, and name without `SIG`.
type Row = (u8, &'static str);

static SIGNALS: [Row; 31] = [
    (1, "HUP"),
    (2, "INT"),
    (3, "QUIT"),
    (4, "ILL"),
    (5, "TRAP"),
    (6, "ABRT"),
    (7, "BUS"),
    (8, "FPE"),
    (9, "KILL"),
    (10, "USR1"),
    (11, "SEGV"),
    (12, "USR2"),
    (13, "PIPE"),
    (14, "ALRM"),
    (15, "TERM"),
    (16, "STKFLT"),
    (17, "CHLD"),
    (18, "CONT"),
    (19, "STOP"),
    (20, "TSTP"),
    (21, "TTIN"),
    (22, "TTOU"),
    (23, "URG"),
    (24, "XCPU"),
    (25, "XFSZ"),
    (26, "VTALRM"),
    (27, "PROF"),
    (28, "WINCH"),
    (29, "IO"),
    (30, "PWR"),
    (31, "SYS"),
];

/// A signal, by its number: 1 to 31.
#[derive(Clone, Copy, Debug, PartialEq, Eq)]
pub struct Signal {
    pub number: u8,
    pub ghost in_range: { IsTrue (nat_lt 0 number && nat_lt number 32) },
}

impl Signal {
    ghost use Rattle.lx_abi.specs.Signals.{signal_numbered, signal_number, signal_name, without_sig};

    pub const ILL: Signal = Signal { number: 4 };

    pub const TRAP: Signal = Signal { number: 5 };

    pub const BUS: Signal = Signal { number: 7 };

    pub const KILL: Signal = Signal { number: 9 };

    pub const SEGV: Signal = Signal { number: 11 };

    pub const PIPE: Signal = Signal { number: 13 };

    pub const CHLD: Signal = Signal { number: 17 };

    pub const URG: Signal = Signal { number: 23 };

    pub const WINCH: Signal = Signal { number: 28 };

    pub fn from_number(number: u64) -> Option<Signal>
        ensures { result ≡ signal_numbered number }
    {
        if number == 0 || number > 31 {
            return None;
        }
        Some(Signal {
            number: number as u8,
        })
    }

    /// The signal with this name, `SIGUSR1` or `USR1`.
    pub fn from_name(name: &str) -> Option<Signal>
        ensures { option_map (λ s. s.number) result ≡ signal_number name.now }
    {
        let row = row_named(&SIGNALS, Signal::bare_name(name))?;
        Signal::from_number(u64::from(row.0))
    }

    fn bare_name(name: &str) -> &str
        ensures { result.now ≡ without_sig name.now }
    {
        name.strip_prefix("SIG").unwrap_or(name)
    }

    /// Its name without `SIG`.
    pub fn name(self) -> &'static str
        ensures { Some result.now ≡ signal_name self.number }
    {
        row_numbered(&SIGNALS, self.number).1
    }
}

fn row_named<'a>(rows: &'a [Row], name: &str) -> Option<&'a Row>
    ensures { option_map signal_row (option_copied result)
        ≡ find (λ row. bytes_eq row.1 name.now) (map signal_row rows.now) }
{
    rows.iter().find(|row| row.1 == name)
}

/// The row with this number, where the numbers count up from 1.
fn row_numbered(rows: &[Row], number: u8) -> &Row
    requires counted { IsTrue (counts_from 1 (map (λ row. row.0) rows.now)) }
    requires positive { 0 < number }
    requires within { number ≤ length rows.now }
    ensures { Some (signal_row result.now) ≡ find (λ row. row.0 == number) (map signal_row rows.now) }
{
    &rows[usize::from(number) - 1]
}
