ghost use Rattle.std.specs.Prelude.{◌≡◌, false};
ghost use Rattle.std.specs.Option.{IsSome};
ghost use Rattle.pk_txn.specs.Images.{image_at, had_row, IsNextImage};
ghost use Rattle.pk_txn.specs.Contents.{transaction_of, images_of};
ghost use Rattle.pk_exec.specs.Rows.{AscendFrom, AscendFrom-prop};
ghost use Rattle.pk_snapshot.specs.Begun.{rows_seen};
ghost use Rattle.pk_snapshot.specs.Walks.{IsNextImage-prop, IsUnchangedAt, IsUnchangedAt-prop};

use crate::places::{is_place_behind, is_reached, searched};
use pk_exec::{ListView, View};
use pk_txn::{Book, Seen};
use pk_values::{Name, Placed, Row};
use pk_world::StoreErr;

/// A table's rows as they stood when a session's transaction began: what a statement of that transaction
/// reads, before the transaction's own edits. It joins the rows as they are now with the images of those
/// that commits have changed since. It tells its rows, and never fails but for want of memory.
///
/// A walk by `next_after` and `row` asks the book once for each row of now, and searches neither the rows
/// nor the images that it has passed.
#[derive(Drop)]
pub struct Snapshot<'a> {
    /// The table's rows as they are now.
    rows: &'a [Placed],
    book: &'a Book,
    session: &'a Name,
    table: u32,
    /// The place in `rows` where the last search ended.
    place: usize,
    /// A row that no commit since has changed, where one is known.
    unchanged: Option<u64>,
    /// The next image behind this id is `next`.
    behind: u64,
    next: Option<u64>,
    ghost is_open: { IsSome (transaction_of session.now book.now) },
    ghost ascend: { AscendFrom 1 rows.now } by { AscendFrom-prop 1 rows.now },
    ghost seen_ascend: { AscendFrom 1 (rows_seen session.now book.now table rows.now) } by { AscendFrom-prop 1 (rows_seen session.now book.now table rows.now) },
    ghost stays: { IsUnchangedAt session.now book.now table unchanged } by { IsUnchangedAt-prop session.now book.now table unchanged },
    ghost is_next: { IsNextImage (images_of session.now book.now) table behind next } by { IsNextImage-prop (transaction_of session.now book.now) table behind next },
}

impl<'a> Snapshot<'a> {
    ghost use Rattle.std.specs.Prelude.{◌≤◌, length, drop, Some, IsTrue, IfOk, IfErr};
    ghost use Rattle.pk_world.specs.declared.store_err.StoreErr.TheVariants as store_errs;
    ghost use Rattle.pk_exec.specs.Rows.{has_id, row_of};
    ghost use Rattle.pk_snapshot.specs.Snapshots.{shown};
    ghost use Rattle.pk_snapshot.specs.Walks.{first_before, is_unchanged, standing_id, IsPlaceBehind};

    /// The rows of the table as the session's transaction sees them. `rows` are the rows of now, in the
    /// order of their ids. The last condition says that no image gives back a row with the id 0, which no
    /// row has.
    pub fn new(rows: &'a [Placed], book: &'a Book, session: &'a Name, table: u32) -> Snapshot<'a>
        requires is_open { IsSome (transaction_of session.now book.now) }
        requires ascend { AscendFrom 1 rows.now }
        requires no_zero { had_row (image_at (images_of session.now book.now) table 0) ≡ false }
        ensures { shown result ≡ rows_seen session.now book.now table rows.now }
    {
        let next = book.next_image(session, table, 0);
        Snapshot {
            rows,
            book,
            session,
            table,
            place: 0,
            unchanged: None,
            behind: 0,
            next,
        }
    }

    // Whether no commit since has changed the row.
    fn is_unchanged(&self, id: u64) -> bool
        ensures { result ≡ is_unchanged self.now.session.now self.now.book.now self.now.table id }
    {
        match self.book.view_row(self.session, self.table, id) {
            Seen::Current => true,
            Seen::Was(_) => false,
            Seen::Absent => false,
        }
    }

    // Whether the row is known to be unchanged.
    fn is_known(&self, id: u64) -> bool
        ensures { IsTrue result → IsTrue (is_unchanged self.now.session.now self.now.book.now self.now.table id) }
    {
        match self.unchanged {
            Some(known) => known == id,
            None => false,
        }
    }

    // The next image behind the id.
    fn image_behind(&self, id: u64) -> Option<u64>
        ensures { IsNextImage (images_of self.now.session.now self.now.book.now) self.now.table id result }
    {
        if self.behind <= id && !is_reached(self.next, id) {
            return self.next;
        }
        self.book.next_image(self.session, self.table, id)
    }

    // The place in `rows` of the first row behind the id.
    fn place_behind(&self, id: u64) -> usize
        ensures { IsPlaceBehind self.now.rows.now id result }
    {
        if self.place < self.rows.len() && is_place_behind(self.rows, self.place + 1, id) {
            return self.place + 1;
        }
        if is_place_behind(self.rows, self.place, id) {
            return self.place;
        }
        searched(self.rows, id)
    }

    // The place of the first row, from this place on, that is unchanged or not before the next image.
    fn standing_from(&self, from: usize, next: Option<u64>) -> usize
        requires { from ≤ length self.now.rows.now }
        ensures { first_before next (drop result self.now.rows.now) ≡ standing_id (is_unchanged self.now.session.now self.now.book.now self.now.table) next (drop from self.now.rows.now) }
    {
        for place in from..self.rows.len() {
            let id = self.rows[place].id;
            if is_reached(next, id) || self.is_unchanged(id) {
                return place;
            }
        }
        self.rows.len()
    }

    // The id of the row at the place, if it is before the next image.
    fn id_at(&self, place: usize, next: Option<u64>) -> Option<u64>
        ensures { result ≡ first_before next (drop place self.now.rows.now) }
    {
        match self.rows.get(place) {
            None => None,
            Some(placed) => (!is_reached(next, placed.id)).then_some(placed.id),
        }
    }

    // The row as it is now.
    fn row_now(&self, id: u64) -> Result<Row, StoreErr>
        requires { IsTrue (has_id self.now.rows.now id) }
        ensures row { IfOk result (λ row. row_of self.now.rows.now id ≡ Some row) }
        ensures cause { IfErr result (λ e. e ≡ store_errs.Memory) }
    {
        if let Some(placed) = self.rows.get(self.place) {
            if placed.id == id {
                return Ok(placed.row.copy()?);
            }
        }
        let mut all = ListView::new(self.rows);
        all.row(id)
    }
}

impl<'a> View for Snapshot<'a> {
    ghost use Rattle.std.specs.Prelude.{true, All, []};
    ghost use Rattle.pk_schema.specs.Admits.{Admits};
    ghost use Rattle.pk_snapshot.specs.Snapshots.{shown};

    ghost rows = { shown };

    ghost tells = { λ _. true };

    ghost fits = { λ view s. All (λ p. Admits s p.row) (shown view) };

    ghost faults = { λ _. 0 };

    ghost strays = { λ _. 0 };

    ghost held = { λ _. [] };

    ghost ascend = { λ view. view.seen_ascend };

    fn next_after(&mut self, id: u64) -> Result<Option<u64>, StoreErr> {
        let next = self.image_behind(id);
        let place = self.standing_from(self.place_behind(id), next);
        let unchanged = self.id_at(place, next);
        self.place = place;
        self.unchanged = unchanged;
        self.behind = id;
        self.next = next;
        Ok(unchanged.or(next))
    }

    fn row(&mut self, id: u64) -> Result<Row, StoreErr> {
        if self.is_known(id) {
            return self.row_now(id);
        }
        match self.book.view_row(self.session, self.table, id) {
            Seen::Current => self.row_now(id),
            Seen::Was(row) => Ok(row.copy()?),
            Seen::Absent => unreachable!(),
        }
    }
}
