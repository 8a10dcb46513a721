//! What holds of the definitions, stated in `specs/Laws.antt`: each function is the proof of its clause.

ghost use Rattle.pk_exec.specs.Laws.{CoveredRowsAreThere, IdsAreNoLower, OrdersAreTotal};

/// Rows are covered exactly where each edited row of the base is one of them.
pub fn covered_rows_are_there()
    ensures { CoveredRowsAreThere }
{}

/// Rows whose ids ascend from a number have no lower id.
pub fn ids_are_no_lower()
    ensures { IdsAreNoLower }
{}

/// ORDER BY puts rows in a total order.
pub fn orders_are_total()
    ensures { OrdersAreTotal }
{}
