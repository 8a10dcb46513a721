//! SELECT.

ghost use Rattle.std.specs.Prelude.{◌≡◌, IfOk};
ghost use Rattle.pk_engine.specs.Select.{told_as};

use crate::engine::{Engine, no_table};
use pk_exec::{ExecErr, Selected};
use pk_report::Reply;
use pk_syntax::{Select, Statement, What};
use pk_values::Memory;

impl Engine {
    ghost use Rattle.std.specs.Prelude.{Ok};
    ghost use Rattle.pk_syntax.specs.Given.{IsGiven};
    ghost use Rattle.pk_bind.specs.Select.{select_refusals};
    ghost use Rattle.pk_engine.specs.Place.{IsPlaceOf};
    ghost use Rattle.pk_engine.specs.State.{State};
    ghost use Rattle.pk_engine.specs.Refusing.{about, decided};
    ghost use Rattle.pk_engine.specs.Select.{selected_rows};
    ghost use Rattle.pk_engine.specs.Stands.{StandsFor, Replies, Moves, RepliesAt};

    // The answer to SELECT.
    pub(super) fn select(&self, select: &Select) -> Result<Reply, Memory>
        requires given { IsGiven (Statement.Select select.now) }
        requires stands { (st : State) × StandsFor self.now st }
        ensures reply { IfOk result (λ r. Replies (λ st. about st select.now.table (λ t. decided st (select_refusals t.shape select.now) (selected_rows st t select.now))) self.now r) }
        ensures next { Moves (λ st. about st select.now.table (λ t. decided st (select_refusals t.shape select.now) (selected_rows st t select.now))) self.now self.now }
    {
        match self.place_of(&select.table) {
            Ok(place) => self.select_at(place, select),
            Err(_) => no_table(&select.table),
        }
    }

    fn select_at(&self, place: usize, select: &Select) -> Result<Reply, Memory>
        requires given { IsGiven (Statement.Select select.now) }
        requires stands { (st : State) × StandsFor self.now st }
        requires found { IsPlaceOf select.now.table self.now.tables.items (Ok place) }
        ensures { IfOk result (λ r. RepliesAt place (λ st t. decided st (select_refusals t.shape select.now) (selected_rows st t select.now)) self.now r) }
    {
        match self.tables[place].select(select) {
            Ok(selected) => Ok(told_as(&select.what, selected)),
            Err(ExecErr::Refused(refusal)) => Ok(Reply::Refused(refusal)),
            Err(ExecErr::Disk | ExecErr::Changed | ExecErr::Memory) => Err(Memory),
        }
    }
}

// Rows with their header, or their number.
fn told_as(what: &What, selected: Selected) -> Reply
    ensures { result ≡ told_as what.now selected }
{
    let Selected { header, rows } = selected;
    match what {
        What::All | What::Columns(_) => Reply::Selected { header, rows },
        What::Count => Reply::Count {
            n: rows.as_slice().len() as u64,
        },
    }
}
