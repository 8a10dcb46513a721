ghost use Rattle.std.specs.Prelude.{◌≡◌, ◌≤◌, ◌<◌, [], length, map, OnOk, OnErr, IfOk, IfSome, is_some, not};
ghost use Rattle.std.specs.Option.{option_copied, option_map, IsSome};
ghost use Rattle.std.specs.List.{find, filter};
ghost use Rattle.pk_txn.specs.declared.book.TheConstants.{MOST_OPEN};
ghost use Rattle.pk_txn.specs.Images.{IsSeen, IsNextImage, IsFirstChange, first_conflict, row_before};
ghost use Rattle.pk_txn.specs.Contents.{of_session, of_base, transaction_of, images_of, images_since, nothing_open, begun, noted, finished, changed_by_all, kept, least_name, lesser, sessions};

use crate::before::Before;
use crate::conflict::Conflict;
use crate::row_key::RowKey;
use crate::seen::Seen;
use crate::shared_row::SharedRow;
use crate::transaction::Transaction;
use pk_values::{Items, Memory, Name, Row};
use std::alloc::Global;
use std::marker::Model;

/// How many transactions are open at most.
pub const MOST_OPEN: usize = 16;

/// The open transactions and what they see of rows that later commits changed. Contracts see it as its
/// open transactions, in the order of their begins, and the greatest commit number noted.
///
/// Beside `begin` and `note` no call takes memory.
#[derive(Drop)]
pub struct Book {
    opened: Vec<Transaction>,
    last: Option<u64>,
}

impl Model for Book {
    ghost use Rattle.std.specs.Prelude.{◌≤◌, length};
    ghost use Rattle.pk_txn.specs.declared.book.TheConstants.{MOST_OPEN};
    ghost use Rattle.pk_txn.specs.Contents.{Contents};

    ghost Value = { Contents };

    ghost view = { λ b. record { opened = b.opened.items; last = b.last } };

    ghost invariant = { λ b. length b.opened.items ≤ MOST_OPEN };
}

impl Book {
    /// A book with no transaction open and no commit noted.
    pub fn new(alloc: Global) -> Book
        ensures { result ≡ nothing_open }
    {
        Book {
            opened: Vec::new(alloc),
            last: None,
        }
    }

    /// Opens a transaction of the session, which sees the base as it stands at this commit number. It
    /// copies nothing of the base. After `Memory` the book is as it was.
    pub fn begin(&mut self, session: &Name, base: u64) -> Result<(), Memory>
        requires none { transaction_of session.now self.old ≡ None }
        requires room { length self.old.opened < MOST_OPEN }
        requires base { IfSome self.old.last (λ last. last ≤ base) }
        ensures begun { OnOk result (self.new ≡ begun session.now base self.old) }
        ensures unchanged { OnErr result (self.new ≡ self.old) }
    {
        let alloc = *self.opened.allocator();
        let transaction = Transaction::begin(alloc, session, base)?;
        self.opened.push(transaction)?;
        Ok(())
    }

    /// Whether the session has a transaction open.
    pub fn has(&self, session: &Name) -> bool
        ensures { result ≡ is_some (transaction_of session.now self.now) }
    {
        transaction_in(self.opened.as_slice(), session).is_some()
    }

    /// How many transactions are open, at most 16.
    pub fn count(&self) -> u32
        ensures count { result ≡ length self.now.opened }
        ensures most { result ≤ MOST_OPEN }
    {
        self.opened.len() as u32
    }

    /// The least session with a transaction open, by the bytes of its name; `None` exactly where none is
    /// open.
    pub fn least(&self) -> Option<&Name>
        ensures { option_copied result ≡ least_name (sessions self.now) }
    {
        least_in(self.opened.as_slice())
    }

    /// The base of the session's transaction; `None` exactly where it has none open.
    pub fn base(&self, session: &Name) -> Option<u64>
        ensures base { result ≡ option_map (λ t. t.base) (transaction_of session.now self.now) }
        ensures is_open { IfSome result (λ base. IsSome (find (of_base base) self.now.opened)) }
    {
        transaction_in(self.opened.as_slice(), session).map(|t| t.base())
    }

    /// The greatest commit number noted; `None` exactly where none was.
    pub fn last(&self) -> Option<u64>
        ensures { result ≡ self.now.last }
    {
        self.last
    }

    /// Notes a commit: the rows that it changed, as they were before it. Each open transaction whose base
    /// is before the commit keeps those rows that no commit had changed since its begin. With none open
    /// nothing is kept and nothing is read. After `Memory` nothing is claimed of what was kept.
    pub fn note(&mut self, commit: u64, before: &Items<Before>) -> Result<(), Memory>
        requires { IfSome self.old.last (λ last. last < commit) }
        ensures noted { OnOk result (self.new ≡ noted commit before.now self.old) }
        ensures nothing_kept { self.old.opened ≡ [] → self.new.opened ≡ [] }
    {
        self.last = Some(commit);
        if self.opened.is_empty() {
            return Ok(());
        }
        let alloc = *self.opened.allocator();
        note_in(alloc, self.opened.as_mut_slice(), commit, before.as_slice())
    }

    /// How the row stood when the session's transaction began. `Current` comes exactly where no commit
    /// after its base changed the row.
    pub fn view_row(&self, session: &Name, table: u32, id: u64) -> Seen<'_>
        requires { IsSome (transaction_of session.now self.now) }
        ensures { IsSeen result (row_before (images_of session.now self.now) table id) }
    {
        self.transaction(session).view_row(table, id)
    }

    /// The least higher id of the table whose row was there when the session's transaction began and was
    /// changed since; `None` exactly where there is none.
    pub fn next_image(&self, session: &Name, table: u32, id: u64) -> Option<u64>
        requires { IsSome (transaction_of session.now self.now) }
        ensures { IsNextImage (images_of session.now self.now) table id result }
    {
        self.transaction(session).next_image(table, id)
    }

    /// The first of the ids whose row a commit after the base of the session's transaction changed, with
    /// the first such commit; `None` exactly where there is none.
    pub fn conflict(&self, session: &Name, table: u32, ids: &[u64]) -> Option<Conflict>
        requires { IsSome (transaction_of session.now self.now) }
        ensures { result ≡ first_conflict (images_of session.now self.now) table ids.now }
    {
        self.transaction(session).conflict(table, ids)
    }

    /// The first commit after the base of an open transaction that changed a row of the table; `None`
    /// exactly where there is none.
    pub fn changed_since(&self, table: u32, base: u64) -> Option<u64>
        requires { IsSome (find (of_base base) self.now.opened) }
        ensures { IsFirstChange (images_since base self.now) table result }
    {
        since(self.opened.as_slice(), base)
            .unwrap()
            .first_change(table)
    }

    /// Closes the session's transaction, and gives up what it saw.
    pub fn finish(&mut self, session: &Name)
        requires { IsSome (transaction_of session.now self.old) }
        ensures { self.new ≡ finished session.now self.old }
    {
        finish_in(&mut self.opened, session);
    }

    fn transaction(&self, session: &Name) -> &Transaction
        requires { IsSome (transaction_of session.now self.now) }
        ensures { transaction_of session.now self.now ≡ Some result.now }
    {
        transaction_in(self.opened.as_slice(), session).unwrap()
    }
}

// The session's transaction.
fn transaction_in<'a>(opened: &'a [Transaction], session: &Name) -> Option<&'a Transaction>
    ensures { option_copied result ≡ find (of_session session.now) opened.now }
{
    opened.iter().find(|t| t.is_of(session))
}

// The first transaction with this base.
fn since(opened: &[Transaction], base: u64) -> Option<&Transaction>
    ensures { option_copied result ≡ find (of_base base) opened.now }
{
    opened.iter().find(|t| t.base() == base)
}

// The least session.
fn least_in(opened: &[Transaction]) -> Option<&Name>
    ensures { option_copied result ≡ least_name (map (λ t. t.session) opened.now) }
{
    let (first, others) = opened.split_first()?;
    Some(lesser(first.session(), least_in(others)))
}

// The lesser of a name and another, where there is another.
fn lesser<'a>(name: &'a Name, other: Option<&'a Name>) -> &'a Name
    ensures { result.now ≡ lesser name.entry.now (option_copied other.entry) }
{
    match other {
        None => name,
        Some(other) => {
            if other.as_slice().cmp(name.as_slice()).is_lt() {
                other
            } else {
                name
            }
        }
    }
}

// Lets each transaction note what a commit changed.
fn note_in(
    alloc: Global,
    opened: &mut [Transaction],
    commit: u64,
    before: &[Before],
) -> Result<(), Memory>
    ensures { OnOk result (opened.new ≡ map (changed_by_all commit before.now) opened.old) }
{
    for image in before {
        let row = shared(alloc, &image.row)?;
        keep_in(opened, image.key(), commit, &row)?;
    }
    Ok(())
}

// An equal row, to be shared by the transactions that see it.
fn shared(alloc: Global, row: &Option<Row>) -> Result<Option<SharedRow>, Memory>
    ensures { IfOk result (λ shared. shared ≡ row.now) }
{
    match row {
        None => Ok(None),
        Some(row) => Ok(Some(SharedRow::of(alloc, row)?)),
    }
}

// Lets each transaction note that a commit changed a row.
fn keep_in(
    opened: &mut [Transaction],
    key: RowKey,
    commit: u64,
    row: &Option<SharedRow>,
) -> Result<(), Memory>
    ensures { OnOk result (opened.new ≡ map (kept commit key row.now) opened.old) }
{
    for transaction in opened.iter_mut() {
        transaction.keep(key, commit, row)?;
    }
    Ok(())
}

// Drops the session's transaction.
fn finish_in(opened: &mut Vec<Transaction>, session: &Name)
    ensures left { opened.new.items ≡ filter (λ t. not (of_session session.now t)) opened.old.items }
    ensures fewer { length opened.new.items ≤ length opened.old.items }
{
    opened.retain(|t| !t.is_of(session));
}
