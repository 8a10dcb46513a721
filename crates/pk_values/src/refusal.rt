use crate::broken::Break;
use crate::name::Name;

/// Why a statement was refused. The variants stand in the order in which they are tried.
#[derive(Debug, Drop)]
pub enum Refusal {
    /// A byte on this line of the script begins no token, or a text on it isn't UTF-8.
    BadCharacter { line: u64 },
    /// The text that begins on this line of the script doesn't end.
    UnclosedText { line: u64 },
    /// The tokens are no statement, in the piece that begins on this line of the script.
    NotStatement { line: u64 },
    /// The base has no such table.
    NoTable { table: Name },
    /// The table that was to be made is there already.
    TableExists { table: Name },
    /// The table has no such column.
    NoColumn { column: Name, table: Name },
    /// The column stands twice where it may stand once: among a table's columns, in a key, or in a list.
    ColumnTwice { column: Name },
    /// A tuple has this many values, and this many are wanted.
    ValueCount { values: u64, columns: u64 },
    /// A literal or a column has another kind than the column it is stored in or compared with.
    WrongKind { column: Name },
    /// A number lies outside 64 bits.
    WideNumber,
    /// A text has so many bytes, more than the column or any text may have.
    LongText { column: Name, bytes: u64, most: u64 },
    /// A column without null would get one.
    NullValue { column: Name },
    /// A row would take so many bytes, more than 4,000.
    LongRow { bytes: u64 },
    /// A declaration or a session's name passes a limit.
    Limit { what: LimitName },
    /// A transaction is open in this session.
    Open { session: Name },
    /// The session has no transaction.
    NoTransaction,
    /// As many transactions are open as there may be.
    Transactions,
    /// The transaction would change more rows than one may.
    ManyChanges,
    /// This commit, which came after the transaction began, changed a row that the transaction changes.
    Conflict { row: u64, table: Name, commit: u64 },
    /// The commit would pass a limit of the base.
    BaseLimit { what: BaseLimitName },
    /// Two rows of the table as it would be break a key.
    BrokenKey { table: Name, broken: Break },
    /// More rows than keys are discovered in.
    DiscoveryRows,
    /// More minimal sets of this sort than are told, from this edge on, counted from 1.
    KeySets { what: SetsName, edge: u32 },
}

/// What of a declaration is limited.
#[derive(Clone, Copy, Debug, PartialEq, Eq)]
pub enum LimitName {
    /// The bytes of a name: 30.
    Name,
    /// The columns of a table: 32.
    Columns,
    /// The keys of a table: 32.
    Keys,
    /// The columns of a certain key that may hold null: 5.
    Nullable,
    /// The tables of a base: 256.
    Tables,
}

/// What of a base is limited.
#[derive(Clone, Copy, Debug, PartialEq, Eq)]
pub enum BaseLimitName {
    /// Its rows: 200,000.
    Rows,
    /// The ids of a table's rows: 2^62.
    RowIds,
    /// Its commits: 2^62.
    Commits,
}

/// Sets of columns that are counted.
#[derive(Clone, Copy, Debug, PartialEq, Eq)]
pub enum SetsName {
    /// Those of certain keys.
    Certain,
    /// Those of possible keys.
    Possible,
}
