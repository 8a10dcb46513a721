//! What a book's images say of commits and of rows. A law is a contract; its function does nothing.

ghost use Rattle.pk_txn.specs.Laws.{ImagesAreFirstChanges, RowsStandAsTheyBegan, SessionsAreApart};
ghost use Rattle.pk_txn.specs.Edges.{BooksAtTheirEdges};

/// After any commits a transaction has at each row what the first commit after its base changed there,
/// and nothing where none changed it; one commit more changes just the rows that had nothing.
pub fn images_are_first_changes()
    ensures { ImagesAreFirstChanges }
{}

/// Where each commit tells the rows that it changes as they were before it, a transaction's images and
/// the rows as they are now give all rows as they stood when the transaction began.
pub fn rows_stand_as_they_began()
    ensures { RowsStandAsTheyBegan }
{}

/// A begin and a finish leave the other sessions' transactions, a session has none after its finish, and
/// a commit is noted for each transaction by itself.
pub fn sessions_are_apart()
    ensures { SessionsAreApart }
{}

/// What the definitions give at their edges, computed: no transaction and several, rows that were there
/// and rows that weren't, two commits that change one row, and the commit of a base.
pub fn definitions_at_their_edges()
    ensures { BooksAtTheirEdges }
{}
