//! What holds of conditions, whatever the row and the condition. A law is a contract; its function
//! does nothing.

ghost use Rattle.pk_logic.specs.Kinds.{KindsAreJudgeable};
ghost use Rattle.pk_logic.specs.Laws.{NotExchanges, NullTestsAreKnown, MembersDecide, NotMirrors, NullIsNotCompared, OrderDecides, FillingKeepsTheKnown, NullTestsChange, ExamplesAreJudged};

/// NOT exchanges true and false, and keeps unknown.
pub fn not_exchanges()
    ensures { NotExchanges }
{}

/// IS NULL is true of null and false of all else, IS NOT NULL the other way; neither is ever unknown.
pub fn null_tests_are_known()
    ensures { NullTestsAreKnown }
{}

/// AND is true exactly where each member is, and false exactly where some member is; OR is false
/// exactly where each member is, and true exactly where some member is.
pub fn members_decide()
    ensures { MembersDecide }
{}

/// NOT of an AND is the OR of each member's NOT, and NOT of an OR the AND of each member's NOT.
pub fn not_mirrors()
    ensures { NotMirrors }
{}

/// A comparison with a null on either side is unknown, whatever the operator: null doesn't equal null.
pub fn null_is_not_compared()
    ensures { NullIsNotCompared }
{}

/// A comparison of known values is decided by their order, exactly as its operator says.
pub fn order_decides()
    ensures { OrderDecides }
{}

/// What is true or false of a row stays so when nulls of the row are filled with any values, if IS NULL
/// stands nowhere in the condition.
pub fn filling_keeps_the_known()
    ensures { FillingKeepsTheKnown }
{}

/// IS NULL alone breaks that: what is true of a row with a null is false once the null is filled.
pub fn null_tests_change()
    ensures { NullTestsChange }
{}

/// A condition that compares a table's columns with values and columns of their own kinds may be judged
/// on each row of that table.
pub fn conditions_over_kinds_are_judgeable()
    ensures { KindsAreJudgeable }
{}

/// The worked examples of `docs/definitions.md`, on the row (NULL, 1).
pub fn examples_are_judged()
    ensures { ExamplesAreJudged }
{}
