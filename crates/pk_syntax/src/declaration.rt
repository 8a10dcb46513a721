use pk_values::{Items, Kind, Name, Sort};

/// The table that a CREATE TABLE declares.
#[derive(Debug, Drop)]
pub struct TableDecl {
    pub table: Name,
    /// In the order of the text.
    pub columns: Items<ColumnDecl>,
    /// In the order in which their words stand in the text.
    pub keys: Items<KeyText>,
}

/// A column of a table.
#[derive(Debug, Drop)]
pub struct ColumnDecl {
    pub name: Name,
    pub kind: Kind,
    /// How many bytes a text of the column has at most, from 1 to 255; 0 for a column of numbers.
    pub max: u8,
    /// Whether null is refused: by NOT NULL, or since a PRIMARY KEY has the column.
    pub not_null: bool,
}

/// A key as it is written.
#[derive(Debug, Drop)]
pub struct KeyText {
    pub sort: Sort,
    /// In the order of the text.
    pub columns: Items<Name>,
}
