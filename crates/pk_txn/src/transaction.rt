ghost use Rattle.std.specs.Prelude.{◌≡◌, OnOk, IfOk};
ghost use Rattle.std.specs.Option.{option_copied};
ghost use Rattle.std.specs.BTreeMap.{get, insert_entry};
ghost use Rattle.std.specs.Ordering.{nat_cmp};
ghost use Rattle.pk_txn.specs.Images.{key_cmp, image_at, IsSeen, IsNextImage, IsFirstChange, first_conflict, row_before};
ghost use Rattle.pk_txn.specs.Contents.{of_session, begun_at, kept};
ghost use Rattle.pk_txn.specs.Indexed.{IsIndexed, IsRowIndexed, earliest};

use crate::conflict::Conflict;
use crate::image::Image;
use crate::row_key::RowKey;
use crate::seen::Seen;
use crate::shared_row::SharedRow;
use pk_values::{Memory, Name};
use std::alloc::Global;
use std::collections::{BTreeMap, BTreeSet};
use std::marker::Model;
use std::ops::Bound;

/// An open transaction. Contracts see it as its session, its base, and its images in the order of their
/// rows.
#[derive(Drop)]
pub(crate) struct Transaction {
    session: Name,
    /// The base's commit number when it began.
    base: u64,
    /// For each row that a later commit changed, the first such commit.
    images: BTreeMap<RowKey, Image>,
    /// The rows that have an image and were there at the begin.
    rows: BTreeSet<RowKey>,
    /// For each table that a later commit changed, the first such commit.
    changed: BTreeMap<u32, u64>,
}

impl Model for Transaction {
    ghost use Rattle.pk_txn.specs.Contents.{Opened};

    ghost Value = { Opened };

    ghost use Rattle.pk_txn.specs.Indexed.{IsIndexed};

    ghost view = { λ t. record { session = t.session; base = t.base; images = t.images.entries } };

    ghost invariant = { λ t. IsIndexed t.images.entries t.rows.keys t.changed.entries };
}

impl Transaction {
    /// A transaction that begins now, with no later commit.
    pub(crate) fn begin(alloc: Global, session: &Name, base: u64) -> Result<Transaction, Memory>
        ensures { IfOk result (λ t. t ≡ begun_at session.now base) }
    {
        let session = session.copy()?;
        Ok(Transaction {
            session,
            base,
            images: BTreeMap::new(alloc),
            rows: BTreeSet::new(alloc),
            changed: BTreeMap::new(alloc),
        })
    }

    pub(crate) fn session(&self) -> &Name
        ensures { result.now ≡ self.now.session }
    {
        &self.session
    }

    pub(crate) fn base(&self) -> u64
        ensures { result ≡ self.now.base }
    {
        self.base
    }

    /// Whether it is this session's.
    pub(crate) fn is_of(&self, session: &Name) -> bool
        ensures { result ≡ of_session session.now self.now }
    {
        session.as_slice() == self.session.as_slice()
    }

    /// Notes that a commit changed a row, which was so before. A commit that isn't after the base and a
    /// row that an earlier commit changed leave the images as they are.
    pub(crate) fn keep(
        &mut self,
        key: RowKey,
        commit: u64,
        row: &Option<SharedRow>,
    ) -> Result<(), Memory>
        ensures { OnOk result (self.new ≡ kept commit key row.now self.old) }
    {
        if commit <= self.base || self.images.contains_key(&key) {
            return Ok(());
        }
        let image = Image {
            commit,
            row: copied(row)?,
        };
        let stored = store(
            &mut self.images,
            &mut self.rows,
            &mut self.changed,
            key,
            image,
        );
        // Without memory nothing is claimed of the images, but the indexes must agree with them.
        if stored.is_err() {
            self.images.clear();
            self.rows.clear();
            self.changed.clear();
        }
        stored
    }

    fn image(&self, table: u32, id: u64) -> Option<&Image>
        ensures { option_copied result ≡ image_at self.now.images table id }
    {
        self.images.get(&RowKey { table, id })
    }

    /// How the row stood at the begin.
    pub(crate) fn view_row(&self, table: u32, id: u64) -> Seen<'_>
        ensures { IsSeen result (row_before self.now.images table id) }
    {
        match self.image(table, id) {
            None => Seen::Current,
            Some(image) => match &image.row {
                None => Seen::Absent,
                Some(shared) => Seen::Was(shared.row()),
            },
        }
    }

    /// The least higher id of the table whose row was there at the begin and was changed since.
    pub(crate) fn next_image(&self, table: u32, id: u64) -> Option<u64>
        ensures { IsNextImage self.now.images table id result }
    {
        let above = (Bound::Excluded(RowKey { table, id }), Bound::Unbounded);
        match self.rows.range(above).next() {
            None => None,
            Some(key) => (key.table == table).then_some(key.id),
        }
    }

    /// The first of the ids whose row a commit changed since, with the first such commit.
    pub(crate) fn conflict(&self, table: u32, ids: &[u64]) -> Option<Conflict>
        ensures { result ≡ first_conflict self.now.images table ids.now }
    {
        for id in ids {
            if let Some(image) = self.image(table, *id) {
                return Some(Conflict {
                    id: *id,
                    commit: image.commit,
                });
            }
        }
        None
    }

    /// The first commit that changed a row of the table since.
    pub(crate) fn first_change(&self, table: u32) -> Option<u64>
        ensures { IsFirstChange self.now.images table result }
    {
        self.changed.get(&table).copied()
    }
}

// The same row once more.
fn copied(row: &Option<SharedRow>) -> Result<Option<SharedRow>, Memory>
    ensures { IfOk result (λ copy. copy ≡ row.now) }
{
    match row {
        None => Ok(None),
        Some(shared) => Ok(Some(shared.copy()?)),
    }
}

// Puts an image at a row that has none, and into the two indexes. After `Err` the three needn't agree.
fn store(
    images: &mut BTreeMap<RowKey, Image>,
    rows: &mut BTreeSet<RowKey>,
    changed: &mut BTreeMap<u32, u64>,
    key: RowKey,
    image: Image,
) -> Result<(), Memory>
    requires absent { get key_cmp images.old key ≡ None }
    requires indexed { IsIndexed images.old.entries rows.old.keys changed.old.entries }
    ensures images { OnOk result (images.new.entries ≡ insert_entry key_cmp images.old.entries key image) }
    ensures indexed { OnOk result (IsIndexed images.new.entries rows.new.keys changed.new.entries) }
{
    let first = earliest(changed, key.table, image.commit);
    index_row(rows, key, image.row.is_some())?;
    changed.insert(key.table, first)?;
    images.insert(key, image)?;
    Ok(())
}

// The earlier of a commit and of that which is indexed for the table, where one is.
fn earliest(changed: &BTreeMap<u32, u64>, table: u32, commit: u64) -> u64
    ensures { result ≡ earliest commit (get nat_cmp changed.now table) }
{
    match changed.get(&table) {
        None => commit,
        Some(first) => commit.min(*first),
    }
}

// Puts a row's key into the index, if the row was there.
fn index_row(rows: &mut BTreeSet<RowKey>, key: RowKey, was_there: bool) -> Result<(), Memory>
    ensures { OnOk result (IsRowIndexed key was_there rows.old.keys rows.new.keys) }
{
    if was_there {
        rows.insert(key)?;
    }
    Ok(())
}
