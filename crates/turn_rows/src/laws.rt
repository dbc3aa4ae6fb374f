//! A law of rows, as the contract of a function with an empty body: call it to cite it.

ghost use Rattle.turn_rows.specs.Cycles.{RowsAreRounds};

/// What a row tells of its rounds and of the rest are its turns.
pub fn rows_are_rounds()
    ensures { RowsAreRounds }
{}
