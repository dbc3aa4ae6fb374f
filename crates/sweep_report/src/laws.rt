//! A law of findings' lines, as the contract of a function with an empty body: call it to cite it.

ghost use Rattle.sweep_report.specs.Keys.{LinesAreKnown};

/// A line is like itself: a finding whose line was written as known is known.
pub fn lines_are_known()
    ensures { LinesAreKnown }
{}
