use crate::example::Example;
use pk_values::{Bytes, ColSet, Items, KeyDecl, Name, Refusal, Row, Rule, Value};

/// The answer to one statement.
#[derive(Debug, Drop)]
pub enum Reply {
    /// The table was made.
    Created {
        table: Name,
    },
    /// The table was dropped.
    Dropped {
        table: Name,
    },
    /// So many rows were put into the table.
    Inserted {
        n: u64,
    },
    /// So many rows were taken and set.
    Updated {
        n: u64,
    },
    /// So many rows were taken out of the table.
    Deleted {
        n: u64,
    },
    /// The names of the columns asked for, and the rows, each with one value per name.
    Selected {
        header: Items<Name>,
        rows: Items<Items<Value>>,
    },
    /// So many rows meet the condition.
    Count {
        n: u64,
    },
    /// A transaction was opened.
    Begun,
    /// The changes stand, as the commit with this number.
    Committed {
        n: u64,
    },
    /// The transaction ended, and had changed nothing.
    CommittedNothing,
    /// The transaction ended, and its changes are gone.
    RolledBack,
    /// The session is the current one.
    InSession {
        name: Name,
    },
    /// The text of a table's declaration.
    Shown {
        text: Bytes,
    },
    /// The key follows from the declared key with this place, counted from 1: the rules are that key's
    /// declaration and then the steps from it.
    Implied {
        key: u32,
        rules: Items<Rule>,
    },
    /// The key doesn't follow: these two rows are a table of the schema and break it.
    NotImplied {
        low: Row,
        high: Row,
    },
    /// The least keys that say the same as the declared ones, and the names of the table's columns.
    Cover {
        columns: Items<Name>,
        keys: Items<KeyDecl>,
    },
    /// The largest sets whose keys aren't implied, and the names of the table's columns.
    Examples {
        columns: Items<Name>,
        cases: Items<Example>,
    },
    /// The least sets that are keys of the rows, for each sort, and the names of the table's columns.
    Discovered {
        columns: Items<Name>,
        certain: Items<ColSet>,
        possible: Items<ColSet>,
    },
    /// What stood in the log stands in the pages.
    Checkpointed,
    /// Nothing was done, and this is why.
    Refused(Refusal),
}
