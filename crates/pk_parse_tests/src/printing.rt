use pk_lex::{Piece, lex};
use pk_parse::parse;
use pk_syntax::{Statement, TableDecl, print_table};
use pk_values::Memory;
use std::alloc::Global;
use std::test::Fail;

// What is printed of the tables that a script declares, each behind a line feed.
fn printed(alloc: Global, script: &[u8]) -> Result<Vec<u8>, Memory> {
    let pieces = lex(alloc, script)?;
    let mut text = Vec::new(alloc);
    for piece in &pieces {
        print_piece(alloc, &mut text, piece)?;
    }
    Ok(text)
}

fn print_piece(alloc: Global, text: &mut Vec<u8>, piece: &Piece) -> Result<(), Memory> {
    match parse(alloc, piece) {
        Ok(statement) => print_statement(alloc, text, &statement),
        Err(_) => Ok(()),
    }
}

fn print_statement(alloc: Global, text: &mut Vec<u8>, statement: &Statement) -> Result<(), Memory> {
    match statement {
        Statement::Create(decl) => print(alloc, text, decl),
        _ => Ok(()),
    }
}

fn print(alloc: Global, text: &mut Vec<u8>, decl: &TableDecl) -> Result<(), Memory> {
    let bytes = print_table(alloc, decl)?;
    text.push(b'\n')?;
    text.extend_from_slice(bytes.as_slice())?;
    Ok(())
}

// A CREATE TABLE on each line, and one on two lines.
const TABLES: &[u8] = b"
create table T (A int);
create table t (a bigint not null, b text, c varchar(255), d varchar(080) not null);
create table t (a varchar(1), b varchar(254), c varchar(9), d varchar(10));
create table t (a int, b int, c int, certain key (c, a, b), possible key ());
create table t (unique (b), b int unique, a int primary key);
create table t (a int, b int, primary key (b, a));
CREATE TABLE contacts (id INTEGER PRIMARY KEY, email VARCHAR(80) UNIQUE,
            name TEXT NOT NULL, city TEXT, phone TEXT, CERTAIN KEY (name, city, phone))";

const TABLES_PRINTED: &[u8] = b"
CREATE TABLE t (a INTEGER);
CREATE TABLE t (a INTEGER NOT NULL, b TEXT, c TEXT, d VARCHAR(80) NOT NULL);
CREATE TABLE t (a VARCHAR(1), b VARCHAR(254), c VARCHAR(9), d VARCHAR(10));
CREATE TABLE t (a INTEGER, b INTEGER, c INTEGER, CERTAIN KEY (a, b, c), POSSIBLE KEY ());
CREATE TABLE t (b INTEGER, a INTEGER NOT NULL, POSSIBLE KEY (b), POSSIBLE KEY (b), CERTAIN KEY (a));
CREATE TABLE t (a INTEGER NOT NULL, b INTEGER NOT NULL, CERTAIN KEY (a, b));
CREATE TABLE contacts (id INTEGER NOT NULL, email VARCHAR(80), name TEXT NOT NULL, city TEXT, phone TEXT, CERTAIN KEY (id), POSSIBLE KEY (email), CERTAIN KEY (name, city, phone));";

#[test]
fn tables_are_printed(rt: HostRuntime) -> Result<(), Fail> {
    let text = printed(rt.alloc(), TABLES)?;
    assert_eq!(rt; text.as_slice(), TABLES_PRINTED);
    Ok(())
}

#[test]
fn printed_tables_are_printed_alike(rt: HostRuntime) -> Result<(), Fail> {
    let text = printed(rt.alloc(), TABLES_PRINTED)?;
    assert_eq!(rt; text.as_slice(), TABLES_PRINTED);
    Ok(())
}
