//! The grammar of the records, read plainly and without contracts: what pk_catalog reads is compared with it.

use pk_schema::Column;
use pk_syntax::is_reserved;
use pk_values::{Kind, Memory};
use std::alloc::Global;

const MOST_NUMBER: u64 = 1 << 62;

/// Whether the bytes are the record of a base.
pub(crate) fn is_base(bytes: &[u8]) -> bool {
    match bytes {
        [1, rest @ ..] => rest.len() == 8 && number(rest) <= MOST_NUMBER,
        [] | [_, ..] => false,
    }
}

// The number that at most eight bytes spell, the highest first.
fn number(bytes: &[u8]) -> u64 {
    bytes.iter().fold(
        0,
        |sum: u64, byte| sum.wrapping_mul(256).wrapping_add(u64::from(*byte)),
    )
}

// ---- rows

/// Whether the bytes are the record of a row of a table with these columns.
pub(crate) fn is_row(columns: &[Column], bytes: &[u8]) -> bool {
    let mut rest = bytes;
    for column in columns {
        match behind_value(column, rest) {
            Some(behind) => rest = behind,
            None => return false,
        }
    }
    rest.is_empty() && bytes.len() <= 4000
}

// The bytes behind a value that may stand in the column.
fn behind_value<'a>(column: &Column, bytes: &'a [u8]) -> Option<&'a [u8]> {
    let (mark, rest) = bytes.split_first()?;
    match *mark {
        0 if !column.not_null => Some(rest),
        1 if column.kind == Kind::Integer => rest.get(8..),
        2 if column.kind == Kind::Text => behind_text(column.max, rest),
        _ => None,
    }
}

fn behind_text(max: u8, bytes: &[u8]) -> Option<&[u8]> {
    let (text, rest) = text_in_front(bytes)?;
    if text.len() <= max as usize && str::from_utf8(text).is_ok() {
        Some(rest)
    } else {
        None
    }
}

// The text behind the number of its bytes, and what is behind it.
fn text_in_front(bytes: &[u8]) -> Option<(&[u8], &[u8])> {
    let (len, rest) = bytes.split_first()?;
    rest.split_at_checked(*len as usize)
}

// ---- tables

#[derive(Drop)]
struct Told<'a> {
    name: &'a [u8],
    is_nullable: bool,
}

/// Whether the bytes are the record of a table.
pub(crate) fn is_table(alloc: Global, bytes: &[u8]) -> Result<bool, Memory> {
    let Some(rest) = behind_head(bytes) else {
        return Ok(false);
    };
    let Some((count, mut rest)) = rest.split_first() else {
        return Ok(false);
    };
    let mut columns = Vec::new(alloc);
    for _ in 0..*count {
        let Some((column, behind)) = column_in_front(rest) else {
            return Ok(false);
        };
        columns.push(column)?;
        rest = behind;
    }
    Ok(are_columns(columns.as_slice()) && are_keys(columns.as_slice(), rest))
}

// The bytes behind version, next id and name.
fn behind_head(bytes: &[u8]) -> Option<&[u8]> {
    let (version, rest) = bytes.split_first()?;
    let (next, rest) = rest.split_at_checked(8)?;
    let (name, rest) = text_in_front(rest)?;
    let next = number(next);
    if *version == 1 && next >= 1 && next <= MOST_NUMBER && is_name(name) {
        Some(rest)
    } else {
        None
    }
}

fn is_name(name: &[u8]) -> bool {
    match name.split_first() {
        None => false,
        Some((first, _)) => {
            !first.is_ascii_digit() && name.iter().all(|b| is_name_byte(*b)) && !is_reserved(name)
        }
    }
}

fn is_name_byte(byte: u8) -> bool {
    byte.is_ascii_lowercase() || byte.is_ascii_digit() || byte == b'_'
}

fn column_in_front(bytes: &[u8]) -> Option<(Told<'_>, &[u8])> {
    let (name, rest) = text_in_front(bytes)?;
    let (form, rest) = rest.split_at_checked(3)?;
    let is_form = match form[0] {
        1 => form[1] == 0,
        2 => form[1] > 0,
        _ => false,
    };
    if is_form && form[2] < 2 && name.len() <= 30 && is_name(name) {
        let is_nullable = form[2] == 0;
        Some((Told { name, is_nullable }, rest))
    } else {
        None
    }
}

// From 1 to 32 columns, no two of one name.
fn are_columns(columns: &[Told<'_>]) -> bool {
    !columns.is_empty()
        && columns.len() <= 32
        && columns.iter().all(|column| columns
            .iter()
            .filter(|other| other.name == column.name)
            .count()
            == 1)
}

// At most 32 keys, and nothing behind them.
fn are_keys(columns: &[Told<'_>], bytes: &[u8]) -> bool {
    match bytes.split_first() {
        None => false,
        Some((count, rest)) => {
            *count <= 32
                && rest.len() == 5 * *count as usize
                && rest.chunks(5).all(|key| is_key(columns, key))
        }
    }
}

fn is_key(columns: &[Told<'_>], key: &[u8]) -> bool {
    let Some((sort, set)) = key.split_first() else {
        return false;
    };
    let set = number(set);
    let mut nullable = 0u32;
    for (place, column) in columns.iter().enumerate() {
        if place < 32 && set >> place & 1 == 1 && column.is_nullable {
            nullable = nullable.saturating_add(1);
        }
    }
    columns.len() <= 32 && set >> columns.len() == 0 && (*sort == 2 || *sort == 1 && nullable <= 5)
}
