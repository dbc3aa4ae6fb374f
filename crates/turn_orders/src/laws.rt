//! Laws of the orders in which things come.

ghost use Rattle.turn_orders.specs.Novelty.{EachOnce};

/// By novelty no place is lost, and none comes twice.
pub fn each_once()
    ensures { EachOnce }
{}
