//! Statements over a table of a number `a` without null, a text `s` of at most 3 bytes, and a number
//! `n`.

ghost use Rattle.std.specs.Prelude.{◌&&◌, IsTrue};
ghost use Rattle.std.specs.List.{list_all};
ghost use Rattle.pk_syntax.specs.Given.{cond_has_utf8, has_utf8, texts_are_utf8};

use crate::scripts::{schema, statement};
use crate::telling::{digit, tell_numbers, tell_row, tell_value};
use pk_bind::{
    Bound, Edit, OrderBy, Selection, Shown, bind_delete, bind_insert, bind_select, bind_update,
};
use pk_logic::Cond;
use pk_schema::Schema;
use pk_syntax::{Delete, Insert, Select, Statement, Update};
use pk_values::{Items, Memory, Name, Refusal, Row};
use std::alloc::Global;
use std::test::Fail;

const TABLE: &[u8] = b"CREATE TABLE t (a INTEGER NOT NULL, s VARCHAR(3), n INTEGER)";

// What the script's statement says of the table's columns, or what it is refused for.
fn told(alloc: Global, schema: &Schema, script: &[u8]) -> Result<Vec<u8>, Fail> {
    let statement = statement(alloc, script)?;
    let mut text = Vec::new(alloc);
    tell(alloc, schema, &statement, &mut text)?;
    Ok(text)
}

fn tell(
    alloc: Global,
    schema: &Schema,
    statement: &Statement,
    text: &mut Vec<u8>,
) -> Result<(), Memory>
    requires { IsTrue (texts_are_utf8 statement.now) }
{
    match statement {
        Statement::Insert(insert) => tell_insert(alloc, schema, insert, text),
        Statement::Update(update) => tell_update(alloc, schema, update, text),
        Statement::Delete(delete) => tell_delete(alloc, schema, delete, text),
        Statement::Select(select) => tell_select(alloc, schema, select, text),
        _ => Ok(text.extend_from_slice(b"another statement")?),
    }
}

// ---- INSERT

fn tell_insert(
    alloc: Global,
    schema: &Schema,
    insert: &Insert,
    text: &mut Vec<u8>,
) -> Result<(), Memory>
    requires { IsTrue (list_all (list_all has_utf8) insert.now.rows) }
{
    let bound = bind_insert(alloc, schema, insert)?;
    tell_new(text, &bound)
}

fn tell_new(text: &mut Vec<u8>, bound: &Bound<Items<Row>>) -> Result<(), Memory> {
    match bound {
        Bound::Ready(rows) => tell_rows(text, rows.as_slice()),
        Bound::Refused(refusal) => tell_refusal(text, refusal),
    }
}

fn tell_rows(text: &mut Vec<u8>, rows: &[Row]) -> Result<(), Memory> {
    text.extend_from_slice(b"rows")?;
    for row in rows {
        tell_row(text, row.as_slice())?;
    }
    Ok(())
}

// ---- UPDATE

fn tell_update(
    alloc: Global,
    schema: &Schema,
    update: &Update,
    text: &mut Vec<u8>,
) -> Result<(), Memory>
    requires { IsTrue (list_all (λ s. has_utf8 s.value) update.now.sets && cond_has_utf8 update.now.cond) }
{
    let bound = bind_update(alloc, schema, update)?;
    tell_edit(text, &bound)
}

fn tell_edit(text: &mut Vec<u8>, bound: &Bound<Edit>) -> Result<(), Memory> {
    match bound {
        Bound::Ready(edit) => tell_sets(text, edit),
        Bound::Refused(refusal) => tell_refusal(text, refusal),
    }
}

// Each column that is set, with its new value.
fn tell_sets(text: &mut Vec<u8>, edit: &Edit) -> Result<(), Memory> {
    text.extend_from_slice(b"set")?;
    for set in edit.sets.as_slice() {
        tell_column(text, b" ", set.column)?;
        tell_value(text, &set.value)?;
    }
    tell_cond(text, &edit.cond)
}

// ---- DELETE

fn tell_delete(
    alloc: Global,
    schema: &Schema,
    delete: &Delete,
    text: &mut Vec<u8>,
) -> Result<(), Memory>
    requires { IsTrue (cond_has_utf8 delete.now.cond) }
{
    let bound = bind_delete(alloc, schema, delete)?;
    tell_taken(text, &bound)
}

fn tell_taken(text: &mut Vec<u8>, bound: &Bound<Option<Cond>>) -> Result<(), Memory> {
    match bound {
        Bound::Ready(cond) => tell_cond(text, cond),
        Bound::Refused(refusal) => tell_refusal(text, refusal),
    }
}

// ---- SELECT

fn tell_select(
    alloc: Global,
    schema: &Schema,
    select: &Select,
    text: &mut Vec<u8>,
) -> Result<(), Memory>
    requires { IsTrue (cond_has_utf8 select.now.cond) }
{
    let bound = bind_select(alloc, schema, select)?;
    tell_selection(text, &bound)
}

fn tell_selection(text: &mut Vec<u8>, bound: &Bound<Selection>) -> Result<(), Memory> {
    match bound {
        Bound::Ready(selection) => tell_asked(text, selection),
        Bound::Refused(refusal) => tell_refusal(text, refusal),
    }
}

fn tell_asked(text: &mut Vec<u8>, selection: &Selection) -> Result<(), Memory> {
    tell_shown(text, &selection.shown)?;
    tell_cond(text, &selection.cond)?;
    tell_order(text, selection.order.as_slice())
}

fn tell_shown(text: &mut Vec<u8>, shown: &Shown) -> Result<(), Memory> {
    match shown {
        Shown::Columns(columns) => tell_columns(text, columns.as_slice()),
        Shown::Count => Ok(text.extend_from_slice(b"counted")?),
    }
}

fn tell_columns(text: &mut Vec<u8>, columns: &[u32]) -> Result<(), Memory> {
    text.extend_from_slice(b"shown")?;
    for column in columns {
        tell_column(text, b" ", *column)?;
    }
    Ok(())
}

fn tell_order(text: &mut Vec<u8>, order: &[OrderBy]) -> Result<(), Memory> {
    for by in order {
        tell_column(text, if by.down { b" down " } else { b" up " }, by.column)?;
    }
    Ok(())
}

// ---- conditions and columns

fn tell_cond(text: &mut Vec<u8>, cond: &Option<Cond>) -> Result<(), Memory> {
    match cond {
        None => Ok(()),
        Some(cond) => tell_test(text, cond),
    }
}

fn tell_test(text: &mut Vec<u8>, cond: &Cond) -> Result<(), Memory> {
    match cond {
        Cond::Compare { column, .. } => tell_column(text, b" compared ", *column),
        Cond::IsNull { column, not } => {
            tell_column(text, if *not { b" known " } else { b" null " }, *column)
        }
        _ => Ok(text.extend_from_slice(b" joined")?),
    }
}

// The column counts from 0.
fn tell_column(text: &mut Vec<u8>, word: &[u8], column: u32) -> Result<(), Memory> {
    text.extend_from_slice(word)?;
    Ok(text.push(digit(u64::from(column)))?)
}

// ---- what is refused

fn tell_refusal(text: &mut Vec<u8>, refusal: &Refusal) -> Result<(), Memory> {
    match refusal {
        Refusal::NoColumn { column, .. } => tell_name(text, b"no column ", column),
        Refusal::ColumnTwice { column } => tell_name(text, b"column twice ", column),
        Refusal::ValueCount { values, columns } => {
            tell_numbers(text, b"values", &[*values, *columns])
        }
        Refusal::WrongKind { column } => tell_name(text, b"wrong kind ", column),
        Refusal::WideNumber => Ok(text.extend_from_slice(b"wide number")?),
        Refusal::LongText { column, .. } => tell_name(text, b"long text ", column),
        Refusal::NullValue { column } => tell_name(text, b"null value ", column),
        _ => Ok(text.extend_from_slice(b"another refusal")?),
    }
}

fn tell_name(text: &mut Vec<u8>, word: &[u8], name: &Name) -> Result<(), Memory> {
    text.extend_from_slice(word)?;
    Ok(text.extend_from_slice(name.as_slice())?)
}

// ---- tests

// A number of 19 digits lies outside 64 bits here.
const CASES: [(&[u8], &[u8]); 26] = [
    (b"INSERT INTO t VALUES (1, 'xyz', NULL)", b"rows 1xyz-"),
    (
        b"INSERT INTO t (a, x, a) VALUES (1, 9223372036854775808, 'wxyz')",
        b"no column x",
    ),
    (
        b"INSERT INTO t (a, a, s) VALUES (1, 9223372036854775808, 'wxyz')",
        b"column twice a",
    ),
    (
        b"INSERT INTO t (a, s) VALUES (1, 9223372036854775808, 'wxyz')",
        b"values 3 2",
    ),
    (
        b"INSERT INTO t VALUES (9223372036854775808, 1, NULL)",
        b"wrong kind s",
    ),
    (
        b"INSERT INTO t VALUES (NULL, 'wxyz', 9223372036854775808)",
        b"wide number",
    ),
    (b"INSERT INTO t VALUES (NULL, 'wxyz', 1)", b"long text s"),
    (b"INSERT INTO t VALUES (NULL, 'xyz', 1)", b"null value a"),
    (
        b"INSERT INTO t (n, s, a) VALUES (1, 'xyz', 1)",
        b"rows 1xyz1",
    ),
    (
        b"INSERT INTO t (n, s, a) VALUES (1, 'xyz', NULL)",
        b"null value a",
    ),
    (
        b"INSERT INTO t (s, a, n) VALUES ('xyz', NULL, NULL)",
        b"null value a",
    ),
    (
        b"INSERT INTO t (n, s, a) VALUES (NULL, 'xyz', 1)",
        b"rows 1xyz-",
    ),
    (
        b"UPDATE t SET s = 'xyz' WHERE a >= 1",
        b"set 1xyz compared 0",
    ),
    (b"UPDATE t SET x = 1 WHERE y >= 1", b"no column x"),
    (
        b"UPDATE t SET a = 9223372036854775808 WHERE y >= 1",
        b"no column y",
    ),
    (
        b"UPDATE t SET a = 9223372036854775808 WHERE s >= 1",
        b"wrong kind s",
    ),
    (
        b"UPDATE t SET s = 'wxyz' WHERE n >= 9223372036854775808",
        b"wide number",
    ),
    (b"UPDATE t SET s = 'wxyz' WHERE a >= NULL", b"long text s"),
    (b"UPDATE t SET a = NULL WHERE s >= 'wxyz'", b"null value a"),
    (
        b"UPDATE t SET n = NULL WHERE s >= NULL",
        b"set 2- compared 1",
    ),
    (b"DELETE FROM t WHERE x >= 1", b"no column x"),
    (
        b"DELETE FROM t WHERE s >= 9223372036854775808",
        b"wrong kind s",
    ),
    (
        b"DELETE FROM t WHERE a >= 9223372036854775808",
        b"wide number",
    ),
    (b"DELETE FROM t WHERE s >= 'wxyz'", b" compared 1"),
    (
        b"SELECT n, a FROM t WHERE s IS NOT NULL ORDER BY n DESC",
        b"shown 2 0 known 1 down 2",
    ),
    (
        b"SELECT * FROM t WHERE a IS NOT NULL ORDER BY a DESC",
        b"shown 0 1 2 known 0 down 0",
    ),
];

#[test]
fn statements_are_bound_or_refused_in_order(rt: HostRuntime) -> Result<(), Fail> {
    let alloc = rt.alloc();
    let schema = schema(alloc, TABLE)?;
    for (script, want) in CASES {
        let text = told(alloc, &schema, script)?;
        assert_eq!(rt; text.as_slice(), want);
    }
    Ok(())
}
