//! What conditions over the columns of a table are refused for.

ghost use Rattle.std.specs.Prelude.{◌≡◌, map, IfOk};
ghost use Rattle.std.specs.Option.{option_copied};
ghost use Rattle.pk_values.specs.Refusals.{first_some, or_else};
ghost use Rattle.pk_bind.specs.Columns.{no_column};
ghost use Rattle.pk_bind.specs.Conditions.{missing_in, unless_same_kind, kind_beside, kind_in, wide_in, long_in, comparison_fault, null_test_fault, test_fault, cond_fault, cond_refusals};

use crate::columns::no_column;
use crate::literals::{kind_fault, long_fault, unless_kind, wide_fault};
use pk_schema::{Column, column_named};
use pk_syntax::{Operand, Test};
use pk_values::{Memory, Name, Refusal};

/// What is looked for in a condition.
#[derive(Clone, Copy, Debug, PartialEq, Eq)]
pub(crate) enum Search {
    /// A name that is no column.
    Missing,
    /// A comparison of a column with what is of another kind.
    Kind,
    /// A number outside 64 bits.
    Wide,
    /// A text that is longer than any may be.
    Length,
}

// How many bytes a text has at most that is compared.
const MOST_COMPARED: u8 = 255;

/// The first refusal of a condition that stands, in the order in which they are tried.
pub(crate) fn cond_refusal(
    columns: &[Column],
    table: &Name,
    cond: &Option<Test>,
) -> Result<Option<Refusal>, Memory>
    ensures { IfOk result (λ r. r ≡ first_some (cond_refusals columns.now table.now cond.now)) }
{
    if let Some(refusal) = cond_fault(Search::Missing, columns, table, cond)? {
        return Ok(Some(refusal));
    }
    if let Some(refusal) = cond_fault(Search::Kind, columns, table, cond)? {
        return Ok(Some(refusal));
    }
    if let Some(refusal) = cond_fault(Search::Wide, columns, table, cond)? {
        return Ok(Some(refusal));
    }
    cond_fault(Search::Length, columns, table, cond)
}

/// What is found first in a condition, where there is one.
pub(crate) fn cond_fault(
    search: Search,
    columns: &[Column],
    table: &Name,
    cond: &Option<Test>,
) -> Result<Option<Refusal>, Memory>
    ensures { IfOk result (λ r. r ≡ cond_fault search columns.now table.now cond.now) }
{
    match cond {
        None => Ok(None),
        Some(test) => test_fault(search, columns, table, test),
    }
}

// What is found first, from left to right.
#[cycle(searching)]
fn test_fault(
    search: Search,
    columns: &[Column],
    table: &Name,
    test: &Test,
) -> Result<Option<Refusal>, Memory>
    ensures { IfOk result (λ r. r ≡ test_fault search columns.now table.now test.now) }
{
    match test {
        Test::Compare {
            column,
            op: _,
            with,
        } => comparison_fault(search, columns, table, column, with),
        Test::IsNull { column, not: _ } => null_test_fault(search, columns, table, column),
        Test::Not(denied) => test_fault(search, columns, table, denied.get()),
        Test::All(members) | Test::Any(members) => {
            members_fault(search, columns, table, members.as_slice())
        }
    }
}

// What is found in the first member in which anything is.
#[cycle(searching)]
fn members_fault(
    search: Search,
    columns: &[Column],
    table: &Name,
    members: &[Test],
) -> Result<Option<Refusal>, Memory>
    ensures { IfOk result (λ r. r ≡ first_some (map (test_fault search columns.now table.now) members.now)) }
{
    for member in members {
        if let Some(refusal) = test_fault(search, columns, table, member)? {
            return Ok(Some(refusal));
        }
    }
    Ok(None)
}

fn comparison_fault(
    search: Search,
    columns: &[Column],
    table: &Name,
    name: &Name,
    with: &Operand,
) -> Result<Option<Refusal>, Memory>
    ensures { IfOk result (λ r. r ≡ comparison_fault search columns.now table.now name.now with.now) }
{
    match search {
        Search::Missing => missing_in(columns, table, name, with),
        Search::Kind => kind_in(columns, column_named(columns, name), with),
        Search::Wide => Ok(wide_in(with)),
        Search::Length => long_in(name, with),
    }
}

// IS NULL may be asked of every column.
fn null_test_fault(
    search: Search,
    columns: &[Column],
    table: &Name,
    name: &Name,
) -> Result<Option<Refusal>, Memory>
    ensures { IfOk result (λ r. r ≡ null_test_fault search columns.now table.now name.now) }
{
    match search {
        Search::Missing => no_column(columns, table, name),
        Search::Kind | Search::Wide | Search::Length => Ok(None),
    }
}

// One of the columns that are compared is none of the table: the left one, or else the right one.
fn missing_in(
    columns: &[Column],
    table: &Name,
    name: &Name,
    with: &Operand,
) -> Result<Option<Refusal>, Memory>
    ensures { IfOk result (λ r. r ≡ missing_in columns.now table.now name.now with.now) }
{
    match with {
        Operand::Known(_) => no_column(columns, table, name),
        Operand::Column(other) => missing_of_two(columns, table, name, other),
    }
}

fn missing_of_two(
    columns: &[Column],
    table: &Name,
    name: &Name,
    other: &Name,
) -> Result<Option<Refusal>, Memory>
    ensures { IfOk result (λ r. r ≡ or_else (no_column columns.now table.now name.now) (no_column columns.now table.now other.now)) }
{
    if let Some(refusal) = no_column(columns, table, name)? {
        return Ok(Some(refusal));
    }
    no_column(columns, table, other)
}

// The other side is of another kind than the column, where there is one of this name.
fn kind_in(
    columns: &[Column],
    column: Option<&Column>,
    with: &Operand,
) -> Result<Option<Refusal>, Memory>
    ensures { IfOk result (λ r. r ≡ kind_in columns.now (option_copied column.entry) with.now) }
{
    match column {
        None => Ok(None),
        Some(column) => kind_beside(columns, column, with),
    }
}

fn kind_beside(
    columns: &[Column],
    column: &Column,
    with: &Operand,
) -> Result<Option<Refusal>, Memory>
    ensures { IfOk result (λ r. r ≡ kind_beside columns.now column.now with.now) }
{
    match with {
        Operand::Known(literal) => kind_fault(column, literal),
        Operand::Column(other) => unless_same_kind(column, column_named(columns, other)),
    }
}

fn unless_same_kind(column: &Column, other: Option<&Column>) -> Result<Option<Refusal>, Memory>
    ensures { IfOk result (λ r. r ≡ unless_same_kind column.now (option_copied other.entry)) }
{
    match other {
        None => Ok(None),
        Some(other) => unless_kind(column, other.kind),
    }
}

// The column is compared with a number outside 64 bits.
fn wide_in(with: &Operand) -> Option<Refusal>
    ensures { result ≡ wide_in with.now }
{
    match with {
        Operand::Known(literal) => wide_fault(literal),
        Operand::Column(_) => None,
    }
}

// The column is compared with a text that is longer than any may be.
fn long_in(name: &Name, with: &Operand) -> Result<Option<Refusal>, Memory>
    ensures { IfOk result (λ r. r ≡ long_in name.now with.now) }
{
    match with {
        Operand::Known(literal) => long_fault(name, MOST_COMPARED, literal),
        Operand::Column(_) => Ok(None),
    }
}
