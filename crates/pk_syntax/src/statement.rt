use crate::declaration::{KeyText, TableDecl};
use crate::edit::{Delete, Insert, Update};
use crate::query::Select;
use pk_values::{Items, Name};

/// A statement as it is written, before anything is known of the base.
#[derive(Debug, Drop)]
pub enum Statement {
    /// `CREATE TABLE t (a INTEGER NOT NULL, b TEXT, CERTAIN KEY (a, b))`
    Create(TableDecl),
    /// `DROP TABLE t`
    Drop {
        table: Name,
    },
    /// `INSERT INTO t (a, b) VALUES (1, 'x')`
    Insert(Insert),
    /// `UPDATE t SET b = NULL WHERE a = 1`
    Update(Update),
    /// `DELETE FROM t WHERE a = 1`
    Delete(Delete),
    /// `SELECT a, b FROM t WHERE a = 1 ORDER BY b DESC`
    Select(Select),
    /// `BEGIN`
    Begin,
    /// `COMMIT`
    Commit,
    /// `ROLLBACK`
    Rollback,
    /// `SESSION s`
    Session {
        name: Name,
    },
    /// `SHOW CREATE TABLE t`
    Show {
        table: Name,
    },
    /// `IMPLIES t CERTAIN KEY (a, b)`
    Implies {
        table: Name,
        key: KeyText,
    },
    /// `COVER OF t`
    Cover {
        table: Name,
    },
    /// `EXAMPLES OF t`
    Examples {
        table: Name,
    },
    /// `DISCOVER KEYS FROM t OVER (a, b)`
    Discover {
        table: Name,
        /// The columns asked for, or `None` where the statement lists none: all columns.
        over: Option<Items<Name>>,
    },
    /// `CHECKPOINT`
    Checkpoint,
}
