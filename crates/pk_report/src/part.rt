use crate::naming::write_columns;
use crate::shown::{Shown, write_bytes, write_number, write_values};
use pk_values::{ColSet, Memory, Name, Value};

/// A part of a line.
#[derive(Debug, Drop)]
pub(crate) enum Part<'a> {
    /// Words that are the same in each such line.
    Words(&'a [u8]),
    /// A name as it is.
    Named(&'a Name),
    /// A number in decimal.
    Number(u64),
    /// Values in parentheses.
    Values(&'a [Value]),
    /// The names of a set's columns in parentheses.
    Columns { names: &'a [Name], set: ColSet },
}

impl Shown for Part<'_> {
    ghost use Rattle.pk_report.specs.Part.{part_text};

    ghost text = { part_text };

    fn write_to(&self, out: &mut Vec<u8>) -> Result<(), Memory> {
        match self {
            Part::Words(words) => write_bytes(out, words),
            Part::Named(name) => write_bytes(out, name.as_slice()),
            Part::Number(n) => write_number(out, *n),
            Part::Values(values) => write_values(out, values),
            Part::Columns { names, set } => write_columns(out, names, *set),
        }
    }
}
