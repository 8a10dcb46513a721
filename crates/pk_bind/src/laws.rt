//! What holds of each statement that is bound, stated in `specs/`: each function is the proof of its
//! clause.

ghost use Rattle.pk_bind.specs.Laws.{NamedColumnsAreFound, AsManyRowsAsTuples, LiteralsLandInTheirColumns, NewRowsAreAdmitted, EditsFit, ConditionsFit, SelectionsFit, ConditionsAreJudgeable, SetRowsAreAdmitted};

/// A name that isn't refused is that of a column, which stands at the name's place.
pub fn named_columns_are_found()
    ensures { NamedColumnsAreFound }
{}

/// An INSERT makes as many rows as it has tuples.
pub fn as_many_rows_as_tuples()
    ensures { AsManyRowsAsTuples }
{}

/// A literal of an INSERT that isn't refused lands in the column that is listed for it, and a column that
/// isn't listed gets null.
pub fn literals_land_in_their_columns()
    ensures { LiteralsLandInTheirColumns }
{}

/// The schema admits each row of an INSERT that isn't refused.
pub fn new_rows_are_admitted()
    ensures { NewRowsAreAdmitted }
{}

/// What is bound of an UPDATE, a DELETE or a SELECT that isn't refused fits the columns.
pub fn what_is_bound_fits()
    ensures edits { EditsFit }
    ensures conditions { ConditionsFit }
    ensures selections { SelectionsFit }
{}

/// A condition that fits may be judged on each row that the schema admits.
pub fn conditions_are_judgeable()
    ensures { ConditionsAreJudgeable }
{}

/// An admitted row with new values in its columns is admitted, if it isn't too long.
pub fn set_rows_are_admitted()
    ensures { SetRowsAreAdmitted }
{}
