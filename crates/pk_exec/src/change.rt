ghost use Rattle.std.specs.Prelude.{◌≡◌, IfOk};
ghost use Rattle.pk_exec.specs.Fates.{edit_change, removal, fate_of, CanChange, put_fate, CanSet};

use crate::conditions::takes;
use crate::setting::set_values;
use pk_bind::{Edit, SetTo};
use pk_logic::Cond;
use pk_values::{Items, Memory, Row};

/// What is done to the rows that meet a condition, or to all rows where there is none.
#[derive(Debug, Drop)]
pub(crate) struct Change {
    pub(crate) cond: Option<Cond>,
    /// The new values that they get; `None` where they go.
    pub(crate) sets: Option<Items<SetTo>>,
}

/// What becomes of a row.
#[derive(Debug, Drop)]
pub(crate) enum Fate {
    /// It isn't taken.
    Left(Row),
    /// This row stands in its place.
    Put(Row),
    /// It goes.
    Gone,
    /// The row in its place would take so many bytes, more than 4,000.
    Long(u64),
}

impl Change {
    /// What an UPDATE does.
    pub(crate) fn of_edit(edit: Edit) -> Change
        ensures { result ≡ edit_change edit }
    {
        let Edit { sets, cond } = edit;
        Change {
            cond,
            sets: Some(sets),
        }
    }

    /// What a DELETE does.
    pub(crate) fn removal(cond: Option<Cond>) -> Change
        ensures { result ≡ removal cond }
    {
        Change { cond, sets: None }
    }

    /// What becomes of the row.
    #[tactic(auto, unfolding(crate::specs::Fates::fate_of))]
    pub(crate) fn fate(&self, row: Row) -> Result<Fate, Memory>
        requires { CanChange self.now row }
        ensures { IfOk result (λ fate. fate ≡ fate_of self.now row) }
    {
        if !takes(&self.cond, &row) {
            return Ok(Fate::Left(row));
        }
        match &self.sets {
            None => Ok(Fate::Gone),
            Some(sets) => put_fate(sets.as_slice(), row),
        }
    }
}

// What becomes of a row that gets these values.
fn put_fate(sets: &[SetTo], row: Row) -> Result<Fate, Memory>
    requires { CanSet sets.now row }
    ensures { IfOk result (λ fate. fate ≡ put_fate sets.now row) }
{
    let row = set_values(sets, row)?;
    let bytes = row.record_len();
    if bytes > 4000 {
        return Ok(Fate::Long(u64::from(bytes)));
    }
    Ok(Fate::Put(row))
}
