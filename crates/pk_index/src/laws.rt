//! What holds of the values and projections that an index keeps. A law is a contract; its function does
//! nothing.

ghost use Rattle.pk_index.specs.Laws.{WeakIsOfValues, StrongIsOfValues, FilingTellsRows};

/// Rows are weakly similar on the columns of a key just where their values on these columns are, and
/// strongly similar likewise. So what an index finds among the values that it keeps is what stands
/// between the rows.
pub fn similarity_is_of_values()
    ensures weak { WeakIsOfValues }
    ensures strong { StrongIsOfValues }
{}

/// The bytes that a look-up asks for are among those of a row exactly where the row is null on just the
/// columns of the pattern and weakly similar to the probe.
pub fn projections_tell_rows()
    ensures { FilingTellsRows }
{}
