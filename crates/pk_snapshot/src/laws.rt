//! What the rows of a snapshot are. A law is a contract; its function does nothing but call the laws that it
//! rests on.

ghost use Rattle.pk_snapshot.specs.Edges.{SnapshotsAtTheirEdges};
ghost use Rattle.pk_snapshot.specs.Laws.{CommitsLeaveWhatIsSeen, RowsAreKnownByTheirIds, RowsBegunAreByTheirIds, TransactionsSeeTheirBase};

use pk_txn::{images_are_first_changes, rows_stand_as_they_began};

/// Two lists of rows in the order of their ids are equal where they have the same row under each id.
pub fn rows_are_known_by_their_ids()
    ensures { RowsAreKnownByTheirIds }
{}

/// The rows begun stand in the order of their ids, have under each id the row as it stood when the
/// transaction began, and are the only such list. Where there is no image they are the rows of now.
pub fn rows_begun_are_by_their_ids()
    ensures { RowsBegunAreByTheirIds }
{}

/// Where each commit since a transaction's begin told the rows that it changed, the rows begun are the
/// rows that the transaction found.
pub fn transactions_see_their_base()
    ensures { TransactionsSeeTheirBase }
{
    rows_stand_as_they_began();
}

/// A commit that tells the rows that it changes leaves what the open transactions see.
pub fn commits_leave_what_is_seen()
    ensures { CommitsLeaveWhatIsSeen }
{
    images_are_first_changes();
}

/// What the definitions give at their edges, computed: rows changed once and twice, removed and inserted
/// since, two transactions with different begins, another table, and no transaction.
pub fn definitions_at_their_edges()
    ensures { SnapshotsAtTheirEdges }
{}
