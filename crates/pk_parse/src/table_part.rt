use pk_syntax::KeyText;
use pk_values::{Items, Kind, Name};

/// A part of a CREATE TABLE as it is written.
#[derive(Debug, Drop)]
pub(crate) enum TablePart {
    Column(ColumnText),
    Key(KeyPart),
}

/// A column as it is written.
#[derive(Debug, Drop)]
pub(crate) struct ColumnText {
    pub name: Name,
    pub form: ColumnForm,
    /// What stands behind the type, in the order of the text.
    pub marks: Items<Mark>,
}

/// The type of a column.
#[derive(Clone, Copy, Debug, PartialEq, Eq)]
pub(crate) struct ColumnForm {
    pub kind: Kind,
    /// How many bytes a text has at most; 0 for numbers.
    pub max: u8,
}

/// What may stand behind the type of a column.
#[derive(Clone, Copy, Debug, PartialEq, Eq)]
pub(crate) enum Mark {
    NotNull,
    Unique,
    Primary,
}

/// A key as it is written.
#[derive(Debug, Drop)]
pub(crate) struct KeyPart {
    pub key: KeyText,
    /// Whether it is a PRIMARY KEY, so that its columns refuse null.
    pub primary: bool,
}
