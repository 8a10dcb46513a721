use pk_lex::{Piece, lex};
use pk_parse::{ParseErr, parse};
use pk_syntax::{
    ColumnDecl, Delete, Insert, KeyText, Literal, Op, Operand, OrderPart, Select, SetPart,
    Statement, TableDecl, Test, Update, What,
};
use pk_values::{Items, Kind, Memory, Name, Sort};
use std::alloc::Global;
use std::io::Write;

// What the pieces of a script are read as: a line feed and then few words for each, which tell its
// statement, or why it is none and on which line. Every word but the first has a blank before it.
pub(crate) fn told(alloc: Global, script: &[u8]) -> Result<Vec<u8>, Memory> {
    let pieces = lex(alloc, script)?;
    pieces_told(alloc, &pieces)
}

fn pieces_told(alloc: Global, pieces: &[Piece]) -> Result<Vec<u8>, Memory> {
    let mut text = Vec::new(alloc);
    for piece in pieces {
        tell(&mut text, b"\n")?;
        tell_piece(alloc, &mut text, piece)?;
    }
    Ok(text)
}

// What is told of a script of so many pieces, one on each line from the second on, of which none is
// a statement.
fn none_told(alloc: Global, pieces: u32) -> Result<Vec<u8>, Memory> {
    let mut text = Vec::new(alloc);
    for piece in 0..pieces {
        tell_line(&mut text, b"\nnone", 2 + u64::from(piece))?;
    }
    Ok(text)
}

// Whether that is told of the script.
pub(crate) fn is_none(alloc: Global, script: &[u8], pieces: u32) -> Result<bool, Memory> {
    let answer = told(alloc, script)?;
    let want = none_told(alloc, pieces)?;
    Ok(answer.as_slice() == want.as_slice())
}

// The parts one behind the other.
pub(crate) fn joined(alloc: Global, parts: &[&[u8]]) -> Result<Vec<u8>, Memory> {
    let mut whole = Vec::new(alloc);
    for part in parts {
        tell(&mut whole, part)?;
    }
    Ok(whole)
}

// The text with this part in the place of each such byte.
pub(crate) fn replaced(
    alloc: Global,
    text: &[u8],
    mark: u8,
    part: &[u8],
) -> Result<Vec<u8>, Memory> {
    let mut whole = Vec::new(alloc);
    for byte in text {
        replace(&mut whole, *byte, mark, part)?;
    }
    Ok(whole)
}

fn replace(whole: &mut Vec<u8>, byte: u8, mark: u8, part: &[u8]) -> Result<(), Memory> {
    if byte == mark {
        tell(whole, part)
    } else {
        tell_byte(whole, byte)
    }
}

fn tell_piece(alloc: Global, text: &mut Vec<u8>, piece: &Piece) -> Result<(), Memory> {
    match parse(alloc, piece) {
        Ok(statement) => tell_statement(text, &statement),
        Err(error) => tell_error(text, error),
    }
}

fn tell_error(text: &mut Vec<u8>, error: ParseErr) -> Result<(), Memory> {
    match error {
        ParseErr::BadCharacter { line } => tell_line(text, b"bad character", line),
        ParseErr::UnclosedText { line } => tell_line(text, b"unclosed text", line),
        ParseErr::NotStatement { line } => tell_line(text, b"none", line),
        ParseErr::Memory => Err(Memory),
    }
}

fn tell_line(text: &mut Vec<u8>, error: &[u8], line: u64) -> Result<(), Memory> {
    tell(text, error)?;
    tell(text, b" on")?;
    tell_number(text, i128::from(line))
}

fn tell_statement(text: &mut Vec<u8>, statement: &Statement) -> Result<(), Memory> {
    match statement {
        Statement::Create(create) => tell_create(text, create),
        Statement::Drop { table } => tell_named(text, b"drop", table),
        Statement::Insert(insert) => tell_insert(text, insert),
        Statement::Update(update) => tell_update(text, update),
        Statement::Delete(delete) => tell_delete(text, delete),
        Statement::Select(select) => tell_select(text, select),
        Statement::Begin => tell(text, b"begin"),
        Statement::Commit => tell(text, b"commit"),
        Statement::Rollback => tell(text, b"rollback"),
        Statement::Session { name } => tell_named(text, b"session", name),
        Statement::Show { table } => tell_named(text, b"show", table),
        Statement::Implies { table, key } => tell_implies(text, table, key),
        Statement::Cover { table } => tell_named(text, b"cover", table),
        Statement::Examples { table } => tell_named(text, b"examples", table),
        Statement::Discover { table, over } => tell_discover(text, table, over),
        Statement::Checkpoint => tell(text, b"checkpoint"),
    }
}

fn tell_create(text: &mut Vec<u8>, create: &TableDecl) -> Result<(), Memory> {
    tell_named(text, b"create", &create.table)?;
    tell_columns(text, create.columns.as_slice())?;
    tell_keys(text, create.keys.as_slice())
}

fn tell_columns(text: &mut Vec<u8>, columns: &[ColumnDecl]) -> Result<(), Memory> {
    for column in columns {
        tell_column(text, column)?;
    }
    Ok(())
}

fn tell_column(text: &mut Vec<u8>, column: &ColumnDecl) -> Result<(), Memory> {
    tell_named(text, b";", &column.name)?;
    tell(text, kind_word(column.kind))?;
    tell_number(text, i128::from(column.max))?;
    tell(text, null_words(column.not_null))
}

fn kind_word(kind: Kind) -> &'static [u8] {
    match kind {
        Kind::Integer => b" number",
        Kind::Text => b" text",
    }
}

fn null_words(not_null: bool) -> &'static [u8] {
    if not_null { b" not null" } else { b"" }
}

fn tell_keys(text: &mut Vec<u8>, keys: &[KeyText]) -> Result<(), Memory> {
    for key in keys {
        tell(text, b";")?;
        tell_key(text, key)?;
    }
    Ok(())
}

fn tell_key(text: &mut Vec<u8>, key: &KeyText) -> Result<(), Memory> {
    tell(text, sort_word(key.sort))?;
    tell_names(text, key.columns.as_slice())
}

fn sort_word(sort: Sort) -> &'static [u8] {
    match sort {
        Sort::Certain => b" certain",
        Sort::Possible => b" possible",
    }
}

fn tell_insert(text: &mut Vec<u8>, insert: &Insert) -> Result<(), Memory> {
    tell_named(text, b"insert", &insert.table)?;
    tell_list(text, b" list", &insert.columns)?;
    tell_rows(text, insert.rows.as_slice())
}

fn tell_rows(text: &mut Vec<u8>, rows: &[Items<Literal>]) -> Result<(), Memory> {
    for row in rows {
        tell(text, b" row")?;
        tell_row(text, row.as_slice())?;
    }
    Ok(())
}

fn tell_row(text: &mut Vec<u8>, row: &[Literal]) -> Result<(), Memory> {
    for literal in row {
        tell_literal(text, literal)?;
    }
    Ok(())
}

fn tell_update(text: &mut Vec<u8>, update: &Update) -> Result<(), Memory> {
    tell_named(text, b"update", &update.table)?;
    tell_sets(text, update.sets.as_slice())?;
    tell_where(text, &update.cond)
}

fn tell_sets(text: &mut Vec<u8>, sets: &[SetPart]) -> Result<(), Memory> {
    for set in sets {
        tell_named(text, b" set", &set.column)?;
        tell_literal(text, &set.value)?;
    }
    Ok(())
}

fn tell_delete(text: &mut Vec<u8>, delete: &Delete) -> Result<(), Memory> {
    tell_named(text, b"delete", &delete.table)?;
    tell_where(text, &delete.cond)
}

fn tell_select(text: &mut Vec<u8>, select: &Select) -> Result<(), Memory> {
    tell_named(text, b"select", &select.table)?;
    tell_what(text, &select.what)?;
    tell_where(text, &select.cond)?;
    tell_order(text, select.order.as_slice())
}

fn tell_what(text: &mut Vec<u8>, what: &What) -> Result<(), Memory> {
    match what {
        What::All => tell(text, b" *"),
        What::Columns(names) => tell_names(text, names.as_slice()),
        What::Count => tell(text, b" count"),
    }
}

fn tell_order(text: &mut Vec<u8>, order: &[OrderPart]) -> Result<(), Memory> {
    for part in order {
        tell_named(text, direction(part.down), &part.column)?;
    }
    Ok(())
}

fn direction(down: bool) -> &'static [u8] {
    if down { b" down" } else { b" up" }
}

fn tell_implies(text: &mut Vec<u8>, table: &Name, key: &KeyText) -> Result<(), Memory> {
    tell_named(text, b"implies", table)?;
    tell_key(text, key)
}

fn tell_discover(
    text: &mut Vec<u8>,
    table: &Name,
    over: &Option<Items<Name>>,
) -> Result<(), Memory> {
    tell_named(text, b"discover", table)?;
    tell_list(text, b" over", over)
}

fn tell_list(text: &mut Vec<u8>, word: &[u8], list: &Option<Items<Name>>) -> Result<(), Memory> {
    match list {
        Some(names) => {
            tell(text, word)?;
            tell_names(text, names.as_slice())
        }
        None => Ok(()),
    }
}

fn tell_where(text: &mut Vec<u8>, cond: &Option<Test>) -> Result<(), Memory> {
    match cond {
        Some(test) => {
            tell(text, b" where")?;
            tell_test(text, test)
        }
        None => Ok(()),
    }
}

#[cycle(telling)]
fn tell_test(text: &mut Vec<u8>, test: &Test) -> Result<(), Memory> {
    match test {
        Test::Compare { column, op, with } => tell_comparison(text, column, *op, with),
        Test::IsNull { column, not } => tell_null(text, column, *not),
        Test::Not(denied) => {
            tell(text, b" (not")?;
            tell_test(text, denied.get())?;
            tell(text, b")")
        }
        Test::All(members) => tell_members(text, b" (all", members.as_slice()),
        Test::Any(members) => tell_members(text, b" (any", members.as_slice()),
    }
}

#[cycle(telling)]
fn tell_members(text: &mut Vec<u8>, word: &[u8], members: &[Test]) -> Result<(), Memory> {
    tell(text, word)?;
    for member in members {
        tell_test(text, member)?;
    }
    tell(text, b")")
}

fn tell_comparison(
    text: &mut Vec<u8>,
    column: &Name,
    op: Op,
    with: &Operand,
) -> Result<(), Memory> {
    tell_named(text, op_word(op), column)?;
    tell_operand(text, with)?;
    tell(text, b")")
}

fn op_word(op: Op) -> &'static [u8] {
    match op {
        Op::Equal => b" (=",
        Op::Unequal => b" (<>",
        Op::Less => b" (<",
        Op::AtMost => b" (<=",
        Op::Greater => b" (>",
        Op::AtLeast => b" (>=",
    }
}

fn tell_operand(text: &mut Vec<u8>, operand: &Operand) -> Result<(), Memory> {
    match operand {
        Operand::Known(literal) => tell_literal(text, literal),
        Operand::Column(name) => tell_name(text, name),
    }
}

fn tell_null(text: &mut Vec<u8>, column: &Name, not: bool) -> Result<(), Memory> {
    tell_named(text, null_word(not), column)?;
    tell(text, b")")
}

fn null_word(not: bool) -> &'static [u8] {
    if not { b" (known" } else { b" (null" }
}

// A text begins with a quote, and ends at the next part's blank.
fn tell_literal(text: &mut Vec<u8>, literal: &Literal) -> Result<(), Memory> {
    match literal {
        Literal::Null => tell(text, b" null"),
        Literal::Number(n) => tell_number(text, i128::from(*n)),
        Literal::Wide => tell(text, b" wide"),
        Literal::Text(bytes) => {
            tell(text, b" '")?;
            tell(text, bytes.as_slice())
        }
    }
}

fn tell_names(text: &mut Vec<u8>, names: &[Name]) -> Result<(), Memory> {
    for name in names {
        tell_name(text, name)?;
    }
    Ok(())
}

fn tell_named(text: &mut Vec<u8>, word: &[u8], name: &Name) -> Result<(), Memory> {
    tell(text, word)?;
    tell_name(text, name)
}

fn tell_name(text: &mut Vec<u8>, name: &Name) -> Result<(), Memory> {
    tell(text, b" ")?;
    tell(text, name.as_slice())
}

fn tell_number(text: &mut Vec<u8>, n: i128) -> Result<(), Memory> {
    write!(text, " {n}").map_err(|_| Memory)
}

fn tell(text: &mut Vec<u8>, bytes: &[u8]) -> Result<(), Memory> {
    text.extend_from_slice(bytes)?;
    Ok(())
}

fn tell_byte(text: &mut Vec<u8>, byte: u8) -> Result<(), Memory> {
    text.push(byte)?;
    Ok(())
}
