//! Transactions of two statements over a table `t` of two numbers, `a` and `b`, of which the base has the
//! row (1, 0) under the id 1.

ghost use Rattle.std.specs.Prelude.{◌≡◌, All, IfOk, IfSome, IsTrue};
ghost use Rattle.pk_syntax.specs.Given.{texts_are_utf8};
ghost use Rattle.pk_schema.specs.Admits.{Admits};
ghost use Rattle.pk_exec.specs.Rows.{AscendFrom};
ghost use Rattle.pk_exec.specs.Seen.{Covers, Fits};

use crate::scripts::{schema, statement};
use crate::telling::{digit, tell_numbers, tell_row};
use pk_exec::{ListView, Selected, Work};
use pk_schema::Schema;
use pk_syntax::Statement;
use pk_values::{Items, Memory, Placed, Row, Value};
use std::alloc::Global;
use std::test::Fail;

const TABLE: &[u8] = b"CREATE TABLE t (a INTEGER, b INTEGER)";

// What the transaction knows it by.
const NUMBER: u32 = 7;

// ---- the base

#[tactic(auto, using(crate::proofs::RowLemmas::one_ascends))]
fn base(alloc: Global, schema: &Schema) -> Result<Vec<Placed>, Fail>
    ensures ascend { IfOk result (λ rows. AscendFrom 1 rows.items) }
    ensures admitted { IfOk result (λ rows. All (λ p. Admits schema.now p.row) rows.items) }
{
    let placed = placed(alloc, schema)?;
    Ok(vec![in alloc; placed]?)
}

fn placed(alloc: Global, schema: &Schema) -> Result<Placed, Fail>
    ensures id { IfOk result (λ p. p.id ≡ 1) }
    ensures admitted { IfOk result (λ p. Admits schema.now p.row) }
{
    let row = Row::make(vec![in alloc; Value::Integer(1), Value::Integer(0)]?);
    match schema.admits(&row) {
        Ok(()) => Ok(Placed { id: 1, row }),
        Err(_) => Err("no such row".into()),
    }
}

// ---- statements

// No edits yet.
fn fresh(alloc: Global, schema: &Schema, rows: &[Placed]) -> Work
    ensures fits { Fits result schema.now NUMBER }
    ensures covers { Covers result NUMBER rows.now }
{
    Work::new(alloc)
}

// How many rows the statement edits; `None` where it isn't done.
fn edited(schema: &Schema, rows: &[Placed], work: &mut Work, statement: &Statement) -> Option<u64>
    requires texts { IsTrue (texts_are_utf8 statement.now) }
    requires ascend { AscendFrom 1 rows.now }
    requires admitted { All (λ p. Admits schema.now p.row) rows.now }
    requires fits { Fits work.old schema.now NUMBER }
    requires covers { Covers work.old NUMBER rows.now }
    ensures fits { IfSome result (λ _. Fits work.new schema.now NUMBER) }
    ensures covers { IfSome result (λ _. Covers work.new NUMBER rows.now) }
{
    let mut view = ListView::new(rows);
    match statement {
        Statement::Insert(insert) => work.insert(schema, NUMBER, insert).ok(),
        Statement::Update(update) => work.update(schema, NUMBER, &mut view, update).ok(),
        Statement::Delete(delete) => work.delete(schema, NUMBER, &mut view, delete).ok(),
        _ => None,
    }
}

// ---- what is told

// What the two statements answer, one after the other, and what they change.
fn told(alloc: Global, first: &[u8], second: &[u8]) -> Result<Vec<u8>, Fail> {
    let schema = schema(alloc, TABLE)?;
    let rows = base(alloc, &schema)?;
    let first = statement(alloc, first)?;
    let second = statement(alloc, second)?;
    let mut text = Vec::new(alloc);
    let mut work = fresh(alloc, &schema, rows.as_slice());
    let Some(n) = edited(&schema, rows.as_slice(), &mut work, &first) else {
        return Err("not done".into());
    };
    tell_numbers(&mut text, b"first", &[n])?;
    tell_answer(&mut text, &schema, rows.as_slice(), &mut work, &second)?;
    tell_work(&mut text, &mut work)?;
    Ok(text)
}

fn tell_answer(
    text: &mut Vec<u8>,
    schema: &Schema,
    rows: &[Placed],
    work: &mut Work,
    statement: &Statement,
) -> Result<(), Memory>
    requires texts { IsTrue (texts_are_utf8 statement.now) }
    requires ascend { AscendFrom 1 rows.now }
    requires admitted { All (λ p. Admits schema.now p.row) rows.now }
    requires fits { Fits work.old schema.now NUMBER }
    requires covers { Covers work.old NUMBER rows.now }
{
    let mut view = ListView::new(rows);
    match statement {
        Statement::Select(select) => {
            tell_selected(text, &work.select(schema, NUMBER, &mut view, select).ok())
        }
        _ => tell_edited(text, edited(schema, rows, work, statement)),
    }
}

fn tell_selected(text: &mut Vec<u8>, selected: &Option<Selected>) -> Result<(), Memory> {
    match selected {
        Some(selected) => tell_rows(text, selected.rows.as_slice()),
        None => Ok(text.extend_from_slice(b"; not done")?),
    }
}

fn tell_rows(text: &mut Vec<u8>, rows: &[Items<Value>]) -> Result<(), Memory> {
    text.extend_from_slice(b"; second")?;
    for row in rows {
        tell_row(text, row.as_slice())?;
    }
    Ok(())
}

fn tell_edited(text: &mut Vec<u8>, edited: Option<u64>) -> Result<(), Memory> {
    match edited {
        Some(n) => tell_numbers(text, b"; second", &[n]),
        None => Ok(text.extend_from_slice(b"; not done")?),
    }
}

fn tell_work(text: &mut Vec<u8>, work: &mut Work) -> Result<(), Memory> {
    tell_numbers(text, b"; size", &[work.size()])?;
    tell_tables(text, work)?;
    tell_touched(text, work)?;
    tell_changes(text, work)
}

fn tell_tables(text: &mut Vec<u8>, work: &Work) -> Result<(), Memory> {
    text.extend_from_slice(b"; tables ")?;
    for table in &work.tables()? {
        text.push(digit(u64::from(*table)))?;
    }
    Ok(())
}

fn tell_touched(text: &mut Vec<u8>, work: &Work) -> Result<(), Memory> {
    let touched = work.touched(NUMBER)?;
    tell_numbers(text, b"; touched", touched.as_slice())
}

// What becomes of the base, where new rows get the ids from 2 on.
fn tell_changes(text: &mut Vec<u8>, work: &mut Work) -> Result<(), Memory> {
    let changes = work.take_changes(NUMBER, 2)?;
    tell_numbers(text, b"; gone", changes.gone.as_slice())?;
    tell_put(text, changes.put.as_slice())
}

fn tell_put(text: &mut Vec<u8>, rows: &[Placed]) -> Result<(), Memory> {
    for placed in rows {
        tell_numbers(text, b"; put", &[placed.id])?;
        tell_row(text, placed.row.as_slice())?;
    }
    Ok(())
}

// ---- tests

const CASES: [(&[u8], &[u8], &[u8]); 6] = [
    (
        b"UPDATE t SET b = 7 WHERE a = 1",
        b"SELECT * FROM t",
        b"first 1; second 17; size 1; tables 7; touched 1; gone; put 1 17",
    ),
    (
        b"DELETE FROM t WHERE a = 1",
        b"DELETE FROM t WHERE a = 1",
        b"first 1; second 0; size 1; tables 7; touched 1; gone 1",
    ),
    (
        b"INSERT INTO t VALUES (2, NULL), (3, 5)",
        b"DELETE FROM t WHERE a = 3",
        b"first 2; second 1; size 1; tables 7; touched; gone; put 2 2-",
    ),
    (
        b"INSERT INTO t VALUES (2, NULL), (3, 5)",
        b"SELECT * FROM t ORDER BY b",
        b"first 2; second 2- 10 35; size 2; tables 7; touched; gone; put 2 2-; put 3 35",
    ),
    (
        b"INSERT INTO t VALUES (2, NULL), (3, 5)",
        b"SELECT * FROM t ORDER BY b DESC",
        b"first 2; second 35 10 2-; size 2; tables 7; touched; gone; put 2 2-; put 3 35",
    ),
    // An empty row for each that is counted, behind a blank: one of the base and a new one. The null isn't.
    (
        b"INSERT INTO t VALUES (2, NULL), (3, 5)",
        b"SELECT COUNT(*) FROM t WHERE b >= 0",
        b"first 2; second  ; size 2; tables 7; touched; gone; put 2 2-; put 3 35",
    ),
];

#[test]
fn two_statements_are_answered_and_change_the_base(rt: HostRuntime) -> Result<(), Fail> {
    let alloc = rt.alloc();
    for (first, second, want) in CASES {
        let text = told(alloc, first, second)?;
        assert_eq!(rt; text.as_slice(), want);
    }
    Ok(())
}
