//! What a declaration is refused for.

ghost use Rattle.std.specs.Prelude.{◌≡◌, ◌||◌, ◌&&◌, nat_le, not, ◌∷◌, [], length, map, IfOk};
ghost use Rattle.std.specs.List.{find, list_all, flat_map};
ghost use Rattle.std.specs.Option.{option_copied};
ghost use Rattle.pk_values.specs.Refusals.{first_some};
ghost use Rattle.pk_values.specs.NameSets.{has_name as knows};
ghost use Rattle.pk_syntax.specs.Declarations.{has_name, names_of, missing_column, column_twice, twice, first_of, names_are_short, columns_are_few, keys_are_few, nullable_in, nullable_are_few, is_certain};
ghost use Rattle.pk_schema.specs.Making.{schema_refusals, no_column, declared_twice, limit_unless};

use crate::known::{column_names, knows, repeated};
use crate::named::is_among;
use pk_syntax::{ColumnDecl, KeyText, TableDecl};
use pk_values::{LimitName, Memory, Name, Refusal, Sort};
use std::alloc::Global;
use std::collections::BTreeSet;

/// Why a declaration made no schema.
#[derive(Debug, Drop)]
pub enum MakeErr {
    /// It is refused.
    Refused(Refusal),
    /// Memory ran out.
    Memory,
}

/// How many bytes the name of a table or a column has at most.
const MOST_NAME: usize = 30;
/// How many columns a table has at most.
const MOST_COLUMNS: usize = 32;
/// How many keys a table has at most.
const MOST_KEYS: usize = 32;
/// How many columns of a certain key may be null at most.
const MOST_NULLABLE: usize = 5;

/// The first refusal of the declaration that stands.
pub(crate) fn schema_refusal(alloc: Global, decl: &TableDecl) -> Result<Option<Refusal>, Memory>
    ensures { IfOk result (λ r. r ≡ first_some (schema_refusals decl.now)) }
{
    if let Some(refusal) = no_column(alloc, decl)? {
        return Ok(Some(refusal));
    }
    if let Some(refusal) = declared_twice(alloc, decl)? {
        return Ok(Some(refusal));
    }
    Ok(limit_refusal(decl))
}

// A key names what is no column.
#[tactic(auto, unfolding(crate::specs::Making::no_column))]
fn no_column(alloc: Global, decl: &TableDecl) -> Result<Option<Refusal>, Memory>
    ensures { IfOk result (λ r. r ≡ no_column decl.now) }
{
    match missing_column(alloc, decl.columns.as_slice(), decl.keys.as_slice())? {
        None => Ok(None),
        Some(name) => Ok(Some(Refusal::NoColumn {
            column: name.copy()?,
            table: decl.table.copy()?,
        })),
    }
}

// The first name in a key that is no column.
fn missing_column<'a>(
    alloc: Global,
    columns: &'a [ColumnDecl],
    keys: &'a [KeyText],
) -> Result<Option<&'a Name>, Memory>
    ensures { IfOk result (λ r. option_copied r ≡ find (λ name. not (has_name (names_of columns.now) name)) (flat_map (λ k. k.columns) keys.now)) }
{
    let names = column_names(alloc, columns)?;
    Ok(missing_among(&names, keys))
}

// The first name in a key that is none of these.
fn missing_among<'a>(names: &BTreeSet<&'a [u8]>, keys: &'a [KeyText]) -> Option<&'a Name>
    ensures { option_copied result ≡ find (λ name. not (knows names.now name)) (flat_map (λ k. k.columns) keys.now) }
{
    for key in keys {
        if let Some(name) = missing_in(names, key.columns.as_slice()) {
            return Some(name);
        }
    }
    None
}

fn missing_in<'a>(names: &BTreeSet<&'a [u8]>, key: &'a [Name]) -> Option<&'a Name>
    ensures { option_copied result ≡ find (λ name. not (knows names.now name)) key.now }
{
    for name in key {
        if !knows(names, name) {
            return Some(name);
        }
    }
    None
}

// A column stands twice.
#[tactic(auto, unfolding(crate::specs::Making::declared_twice))]
fn declared_twice(alloc: Global, decl: &TableDecl) -> Result<Option<Refusal>, Memory>
    ensures { IfOk result (λ r. r ≡ declared_twice decl.now) }
{
    match column_twice(alloc, decl.columns.as_slice(), decl.keys.as_slice())? {
        None => Ok(None),
        Some(name) => Ok(Some(Refusal::ColumnTwice {
            column: name.copy()?,
        })),
    }
}

// The first name that stands twice among the columns, or else in a key.
fn column_twice<'a>(
    alloc: Global,
    columns: &'a [ColumnDecl],
    keys: &'a [KeyText],
) -> Result<Option<&'a Name>, Memory>
    ensures { IfOk result (λ r. option_copied r ≡ first_of (twice (names_of columns.now) ∷ map (λ k. twice k.columns) keys.now)) }
{
    match repeated(alloc, columns)? {
        Some(name) => Ok(Some(name)),
        None => twice_in_key(alloc, keys),
    }
}

fn twice_in_key(alloc: Global, keys: &[KeyText]) -> Result<Option<&Name>, Memory>
    ensures { IfOk result (λ r. option_copied r ≡ first_of (map (λ k. twice k.columns) keys.now)) }
{
    for key in keys {
        if let Some(name) = repeated(alloc, key.columns.as_slice())? {
            return Ok(Some(name));
        }
    }
    Ok(None)
}

// The first limit that the declaration passes.
fn limit_refusal(decl: &TableDecl) -> Option<Refusal>
    ensures { result ≡ first_some (limit_unless LimitName.Name (names_are_short decl.now) ∷ limit_unless LimitName.Columns (columns_are_few decl.now) ∷ limit_unless LimitName.Keys (keys_are_few decl.now) ∷ limit_unless LimitName.Nullable (nullable_are_few decl.now) ∷ []) }
{
    let what = if !names_are_short(decl) {
        LimitName::Name
    } else if decl.columns.as_slice().len() > MOST_COLUMNS {
        LimitName::Columns
    } else if decl.keys.as_slice().len() > MOST_KEYS {
        LimitName::Keys
    } else if !nullable_are_few(decl) {
        LimitName::Nullable
    } else {
        return None;
    };
    Some(Refusal::Limit { what })
}

fn names_are_short(decl: &TableDecl) -> bool
    ensures { result ≡ names_are_short decl.now }
{
    is_short(&decl.table) && columns_are_short(decl.columns.as_slice())
}

fn columns_are_short(columns: &[ColumnDecl]) -> bool
    ensures { result ≡ list_all (λ name. nat_le (length name) 30) (names_of columns.now) }
{
    for column in columns {
        if !is_short(&column.name) {
            return false;
        }
    }
    true
}

fn is_short(name: &Name) -> bool
    ensures { result ≡ nat_le (length name.now) 30 }
{
    name.as_slice().len() <= MOST_NAME
}

fn nullable_are_few(decl: &TableDecl) -> bool
    ensures { result ≡ nullable_are_few decl.now }
{
    let columns = decl.columns.as_slice();
    decl.keys
        .as_slice()
        .iter()
        .all(|key| has_few_nullable(columns, key))
}

fn has_few_nullable(columns: &[ColumnDecl], key: &KeyText) -> bool
    ensures { result ≡ (not (is_certain key.now.sort) || nat_le (length (nullable_in columns.now key.now.columns)) 5) }
{
    match key.sort {
        Sort::Certain => nullable_count(columns, key.columns.as_slice()) <= MOST_NULLABLE,
        Sort::Possible => true,
    }
}

// How many of the columns of these names may be null.
fn nullable_count(columns: &[ColumnDecl], names: &[Name]) -> usize
    ensures { result ≡ length (nullable_in columns.now names.now) }
{
    columns
        .iter()
        .filter(|column| is_nullable_in(names, column))
        .count()
}

fn is_nullable_in(names: &[Name], column: &ColumnDecl) -> bool
    ensures { result ≡ (not column.now.not_null && has_name names.now column.now.name) }
{
    !column.not_null && is_among(names, &column.name)
}
