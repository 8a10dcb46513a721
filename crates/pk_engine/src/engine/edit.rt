//! INSERT, UPDATE and DELETE.

ghost use Rattle.std.specs.Prelude.{◌≡◌, ◌<◌, ◌-◌, ◌^◌, length, min, IfOk, Some, slice_get};
ghost use Rattle.pk_engine.specs.Edits.{is_unchanged};

use crate::engine::{Engine, no_table};
use crate::laws::statements_make_entries;
use crate::outcome::Outcome;
use pk_guard::keys_hold_where_nothing_breaks;
use pk_report::Reply;
use pk_syntax::{Delete, Insert, Statement, Update};
use pk_values::{Changes, Memory, Refusal};

impl Engine {
    ghost use Rattle.std.specs.Prelude.{Ok, None, ◌∷◌, []};
    ghost use Rattle.pk_values.specs.Refusals.{first_some};
    ghost use Rattle.pk_syntax.specs.Given.{IsGiven};
    ghost use Rattle.pk_engine.specs.Base.{Table, row_count};
    ghost use Rattle.pk_engine.specs.Entries.{AreOf};
    ghost use Rattle.pk_engine.specs.Place.{IsPlaceOf};
    ghost use Rattle.pk_engine.specs.State.{State, Changed, current, committed, with_commit};
    ghost use Rattle.pk_engine.specs.Refusing.{about, decided};
    ghost use Rattle.pk_engine.specs.Limits.{most_ids};
    ghost use Rattle.pk_engine.specs.Edits.{change_refusals, commit_refusals, with_changes, insert_refusals, inserted, update_refusals, updated_rows, delete_refusals, deleted_rows};
    ghost use Rattle.pk_engine.specs.Stands.{StandsFor, Replies, Moves, RepliesAt, MovesAt};

    // The answer to INSERT.
    pub(super) fn insert(&mut self, insert: &Insert) -> Result<Reply, Memory>
        requires given { IsGiven (Statement.Insert insert.now) }
        requires stands { (st : State) × StandsFor self.old st }
        ensures reply { IfOk result (λ r. Replies (λ st. about st insert.now.table (λ t. decided st (insert_refusals st t insert.now) (inserted st t insert.now))) self.old r) }
        ensures next { IfOk result (λ _. Moves (λ st. about st insert.now.table (λ t. decided st (insert_refusals st t insert.now) (inserted st t insert.now))) self.old self.new) }
    {
        match self.place_of(&insert.table) {
            Ok(place) => self.insert_at(place, insert),
            Err(_) => no_table(&insert.table),
        }
    }

    fn insert_at(&mut self, place: usize, insert: &Insert) -> Result<Reply, Memory>
        requires given { IsGiven (Statement.Insert insert.now) }
        requires stands { (st : State) × StandsFor self.old st }
        requires found { IsPlaceOf insert.now.table self.old.tables.items (Ok place) }
        ensures reply { IfOk result (λ r. RepliesAt place (λ st t. decided st (insert_refusals st t insert.now) (inserted st t insert.now)) self.old r) }
        ensures next { IfOk result (λ _. MovesAt place (λ st t. decided st (insert_refusals st t insert.now) (inserted st t insert.now)) self.old self.new) }
    {
        statements_make_entries();
        match self.tables[place].insert(insert)? {
            Outcome::Done { n, changes } => self.settle(place, changes, Reply::Inserted { n }),
            Outcome::Refused(refusal) => Ok(Reply::Refused(refusal)),
        }
    }

    // The answer to UPDATE.
    pub(super) fn update(&mut self, update: &Update) -> Result<Reply, Memory>
        requires given { IsGiven (Statement.Update update.now) }
        requires stands { (st : State) × StandsFor self.old st }
        ensures reply { IfOk result (λ r. Replies (λ st. about st update.now.table (λ t. decided st (update_refusals st t update.now) (updated_rows st t update.now))) self.old r) }
        ensures next { IfOk result (λ _. Moves (λ st. about st update.now.table (λ t. decided st (update_refusals st t update.now) (updated_rows st t update.now))) self.old self.new) }
    {
        match self.place_of(&update.table) {
            Ok(place) => self.update_at(place, update),
            Err(_) => no_table(&update.table),
        }
    }

    fn update_at(&mut self, place: usize, update: &Update) -> Result<Reply, Memory>
        requires given { IsGiven (Statement.Update update.now) }
        requires stands { (st : State) × StandsFor self.old st }
        requires found { IsPlaceOf update.now.table self.old.tables.items (Ok place) }
        ensures reply { IfOk result (λ r. RepliesAt place (λ st t. decided st (update_refusals st t update.now) (updated_rows st t update.now)) self.old r) }
        ensures next { IfOk result (λ _. MovesAt place (λ st t. decided st (update_refusals st t update.now) (updated_rows st t update.now)) self.old self.new) }
    {
        statements_make_entries();
        match self.tables[place].update(update)? {
            Outcome::Done { n, changes } => self.settle(place, changes, Reply::Updated { n }),
            Outcome::Refused(refusal) => Ok(Reply::Refused(refusal)),
        }
    }

    // The answer to DELETE.
    pub(super) fn delete(&mut self, delete: &Delete) -> Result<Reply, Memory>
        requires given { IsGiven (Statement.Delete delete.now) }
        requires stands { (st : State) × StandsFor self.old st }
        ensures reply { IfOk result (λ r. Replies (λ st. about st delete.now.table (λ t. decided st (delete_refusals st t delete.now) (deleted_rows st t delete.now))) self.old r) }
        ensures next { IfOk result (λ _. Moves (λ st. about st delete.now.table (λ t. decided st (delete_refusals st t delete.now) (deleted_rows st t delete.now))) self.old self.new) }
    {
        match self.place_of(&delete.table) {
            Ok(place) => self.delete_at(place, delete),
            Err(_) => no_table(&delete.table),
        }
    }

    fn delete_at(&mut self, place: usize, delete: &Delete) -> Result<Reply, Memory>
        requires given { IsGiven (Statement.Delete delete.now) }
        requires stands { (st : State) × StandsFor self.old st }
        requires found { IsPlaceOf delete.now.table self.old.tables.items (Ok place) }
        ensures reply { IfOk result (λ r. RepliesAt place (λ st t. decided st (delete_refusals st t delete.now) (deleted_rows st t delete.now)) self.old r) }
        ensures next { IfOk result (λ _. MovesAt place (λ st t. decided st (delete_refusals st t delete.now) (deleted_rows st t delete.now)) self.old self.new) }
    {
        statements_make_entries();
        match self.tables[place].delete(delete)? {
            Outcome::Done { n, changes } => self.settle(place, changes, Reply::Deleted { n }),
            Outcome::Refused(refusal) => Ok(Reply::Refused(refusal)),
        }
    }

    // Commits changes of the table at a place and gives the reply, unless a limit of the base or a key of
    // the table forbids it. Without a change there is no commit, no limit is passed and no key broken.
    fn settle(&mut self, place: usize, changes: Changes, reply: Reply) -> Result<Reply, Memory>
        requires within { place < length self.old.tables.items }
        requires of { (t : Table) → slice_get self.old.tables.items place ≡ Some t → AreOf t changes }
        requires stands { (st : State) × StandsFor self.old st }
        ensures reply { IfOk result (λ r. RepliesAt place (λ st t. decided st (commit_refusals st t changes) (record { reply = reply; next = with_changes st t changes })) self.old r) }
        ensures next { IfOk result (λ _. MovesAt place (λ st t. decided st (commit_refusals st t changes) (record { reply = reply; next = with_changes st t changes })) self.old self.new) }
    {
        if is_unchanged(&changes) {
            return Ok(reply);
        }
        let rows = self.rows_with(place, &changes);
        if let Some(refusal) = self.change_refusal(place, rows, &changes)? {
            return Ok(Reply::Refused(refusal));
        }
        self.commit(place, changes, rows)?;
        Ok(reply)
    }

    // What changes of the table at a place are refused for, with which the base has so many rows: first by
    // the limits of the base, which cost nothing, then by the keys of the table.
    fn change_refusal(
        &self,
        place: usize,
        rows: u64,
        changes: &Changes,
    ) -> Result<Option<Refusal>, Memory>
        requires within { place < length self.now.tables.items }
        requires of { (t : Table) → slice_get self.now.tables.items place ≡ Some t → AreOf t changes.now }
        requires stands { (st : State) × StandsFor self.now st }
        requires rows { (st : State) (t : Table) → StandsFor self.now st → slice_get self.now.tables.items place ≡ Some t → rows ≡ min (row_count (committed (current st) (Changed ((t.name, changes.now) ∷ [])))) (2 ^ 64 - 1) }
        ensures stands { IfOk result (λ r. (st : State) (t : Table) → StandsFor self.now st → slice_get self.now.tables.items place ≡ Some t → r ≡ first_some (change_refusals st t changes.now)) }
        ensures room { IfOk result (λ r. r ≡ None → self.now.commit < most_ids) }
    {
        if let Some(refusal) = self.limit_refusal(place, rows, changes) {
            return Ok(Some(refusal));
        }
        self.tables[place].broken_key(changes)
    }

    // Commits changes of the table at a place, with which the base has so many rows.
    fn commit(&mut self, place: usize, changes: Changes, rows: u64) -> Result<(), Memory>
        requires within { place < length self.old.tables.items }
        requires of { (t : Table) → slice_get self.old.tables.items place ≡ Some t → AreOf t changes }
        requires stands { (st : State) × StandsFor self.old st }
        requires commits { self.old.commit < most_ids }
        requires rows { (st : State) (t : Table) → StandsFor self.old st → slice_get self.old.tables.items place ≡ Some t → rows ≡ min (row_count (committed (current st) (Changed ((t.name, changes) ∷ [])))) (2 ^ 64 - 1) }
        requires free { (st : State) (t : Table) → StandsFor self.old st → slice_get self.old.tables.items place ≡ Some t → first_some (change_refusals st t changes) ≡ None }
        ensures { IfOk result (λ _. (st : State) (t : Table) → StandsFor self.old st → slice_get self.old.tables.items place ≡ Some t → StandsFor self.new (with_commit st (Changed ((t.name, changes) ∷ [])))) }
    {
        keys_hold_where_nothing_breaks();
        self.tables[place].change(changes)?;
        self.rows = rows;
        self.commit += 1;
        Ok(())
    }
}

// No row goes and none is put.
fn is_unchanged(changes: &Changes) -> bool
    ensures { result ≡ is_unchanged changes.now }
{
    changes.gone.as_slice().is_empty() && changes.put.as_slice().is_empty()
}
