//! Declarations by their texts.

use crate::declared::{assert_told, cause, cut, declaration, schema_of};
use pk_schema::{MakeErr, Schema};
use pk_syntax::print_table;
use pk_values::{Bytes, Memory, Name};
use std::alloc::Global;
use std::io::Write;
use std::test::Fail;

// A declaration, and what it is refused for.
const REFUSED: [&[u8]; 6] = [
    b"CREATE TABLE t (a INTEGER, a INTEGER, CERTAIN KEY (a, c, b)); | no column c in t",
    b"CREATE TABLE t (a INTEGER, b INTEGER, b INTEGER, a INTEGER, CERTAIN KEY (a, a)); | b twice",
    b"CREATE TABLE t (a INTEGER, b INTEGER, CERTAIN KEY (a), POSSIBLE KEY (b, a, b)); | b twice",
    b"CREATE TABLE t (a INTEGER, a234567890123456789012345678901 INTEGER); | limit of names",
    b"CREATE TABLE t234567890123456789012345678901 (a INTEGER); | limit of names",
    b"CREATE TABLE t (a INTEGER, b TEXT, c TEXT, d TEXT, e TEXT, f TEXT, CERTAIN KEY (f, e, d, c, b, a)); | limit of nullable columns",
];

// What a table of 2,000 distinct columns is refused for, where this follows.
const WIDE: [&[u8]; 4] = [
    b"d INTEGER); | limit of columns",
    b"c0 INTEGER); | c0 twice",
    b"CERTAIN KEY (c1999, c0, c1999)); | c1999 twice",
    b"CERTAIN KEY (c7, d, e), c0 INTEGER); | no column d in t",
];

#[test]
fn declarations_are_refused(rt: HostRuntime) -> Result<(), Fail> {
    let alloc = rt.alloc();
    for case in &REFUSED {
        let (script, want) = cut(case);
        let told = refusal(alloc, script)?;
        assert_told(&rt, case, told.as_slice(), want);
    }
    for case in &WIDE {
        let (last, want) = cut(case);
        let script = wide(alloc, last)?;
        let told = refusal(alloc, script.as_slice())?;
        assert_told(&rt, case, told.as_slice(), want);
    }
    Ok(())
}

// What the declaration is refused for.
fn refusal(alloc: Global, script: &[u8]) -> Result<Vec<u8>, Fail> {
    let decl = declaration(alloc, script)?;
    match Schema::make(alloc, &decl) {
        Ok(_) => Err("made".into()),
        Err(MakeErr::Refused(refusal)) => Ok(cause(alloc, &refusal)?),
        Err(MakeErr::Memory) => Err("out of memory".into()),
    }
}

fn wide(alloc: Global, last: &[u8]) -> Result<Vec<u8>, Fail> {
    let mut script = Vec::from_slice(alloc, b"CREATE TABLE t (")?;
    for i in 0..2000 {
        write!(script, "c{i} INTEGER, ")?;
    }
    script.extend_from_slice(last)?;
    Ok(script)
}

// A declaration, and its canonical text under the name `u`.
const PRINTED: [&[u8]; 3] = [
    b"create table t (a integer primary key, b varchar(3) unique); | CREATE TABLE u (a INTEGER NOT NULL, b VARCHAR(3), CERTAIN KEY (a), POSSIBLE KEY (b));",
    b"CREATE TABLE t (CERTAIN KEY (c, a), a TEXT, b TEXT NOT NULL, c TEXT, POSSIBLE KEY (c, b, a)); | CREATE TABLE u (a TEXT, b TEXT NOT NULL, c TEXT, CERTAIN KEY (a, c), POSSIBLE KEY (a, b, c));",
    b"CREATE TABLE t (CERTAIN KEY (f, e, d, c, b, a), a TEXT, b TEXT, c TEXT, d TEXT, e TEXT, f TEXT NOT NULL); | CREATE TABLE u (a TEXT, b TEXT, c TEXT, d TEXT, e TEXT, f TEXT NOT NULL, CERTAIN KEY (a, b, c, d, e, f));",
];

#[test]
fn declarations_are_made(rt: HostRuntime) -> Result<(), Fail> {
    let alloc = rt.alloc();
    for case in &PRINTED {
        let (script, text) = cut(case);
        let bytes = printed(alloc, script)?;
        assert_told(&rt, case, bytes.as_slice(), text);
        let again = printed(alloc, text)?;
        assert_told(&rt, case, again.as_slice(), text);
    }
    Ok(())
}

// The canonical text of a copy of what the script declares.
fn printed(alloc: Global, script: &[u8]) -> Result<Bytes, Fail> {
    let copy = schema_of(alloc, script)?.copy()?;
    let table = name(alloc, b"u")?;
    Ok(text_of(alloc, &copy, &table)?)
}

fn text_of(alloc: Global, schema: &Schema, table: &Name) -> Result<Bytes, Memory> {
    let decl = schema.decl(table)?;
    print_table(alloc, &decl)
}

fn name(alloc: Global, word: &[u8]) -> Result<Name, Fail> {
    Ok(Name::read(alloc, word)?.ok_or("no name")?)
}

#[test]
fn columns_are_found(rt: HostRuntime) -> Result<(), Fail> {
    let alloc = rt.alloc();
    let schema = schema_of(
        alloc,
        b"CREATE TABLE t (a INTEGER, b TEXT NOT NULL, c TEXT, CERTAIN KEY (c, a));",
    )?;
    for (word, place) in [(b"a", Some(0)), (b"c", Some(2)), (b"d", None)] {
        let name = name(alloc, word)?;
        assert!(rt; schema.column_place(&name) == place);
    }
    let key = schema.keys().first().ok_or("no key")?;
    for (c, named, not_null, all) in [
        (0, true, false, true),
        (1, false, true, true),
        (2, true, false, true),
        (3, false, false, false),
    ] {
        assert!(rt; key.columns.has(c) == named);
        assert!(rt; schema.not_null().has(c) == not_null);
        assert!(rt; schema.all().has(c) == all);
    }
    Ok(())
}

// A type that halves of parallel work may share and hand over.
fn crosses<T: Send + Sync>(_value: &T) {}

#[test]
fn schemas_may_be_shared_by_threads(rt: HostRuntime) -> Result<(), Fail> {
    crosses(&schema_of(rt.alloc(), b"CREATE TABLE t (a INTEGER);")?);
    Ok(())
}
