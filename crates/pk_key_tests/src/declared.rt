//! What the tests share: what a script declares, and values and refusals as they are spelled.

ghost use Rattle.std.specs.Prelude.{All, IsTrue, IfOk};
ghost use Rattle.pk_lex.specs.Tokens.{is_lexed};
ghost use Rattle.pk_syntax.specs.Declarations.{is_plain};

use pk_lex::{Piece, lex};
use pk_parse::parse;
use pk_schema::Schema;
use pk_syntax::{Statement, TableDecl};
use pk_values::{LimitName, Memory, Refusal, Sort, Value, Words};
use std::alloc::Global;
use std::process::Abort;
use std::test::Fail;

/// The CREATE TABLE of a table t with these columns and keys, spelled as there but for the words
/// POSSIBLE KEY, written `?`, and CERTAIN KEY, written `+`.
pub(crate) fn script(alloc: Global, columns: &[u8], keys: &[u8]) -> Result<Vec<u8>, Memory> {
    let mut script = Vec::from_slice(alloc, b"CREATE TABLE t (")?;
    script.extend_from_slice(columns)?;
    write_keys(&mut script, keys)?;
    script.extend_from_slice(b");")?;
    Ok(script)
}

fn write_keys(out: &mut Vec<u8>, keys: &[u8]) -> Result<(), Memory> {
    for letter in keys {
        match *letter {
            b'?' => out.extend_from_slice(b", POSSIBLE KEY ")?,
            b'+' => out.extend_from_slice(b", CERTAIN KEY ")?,
            other => out.push(other)?,
        }
    }
    Ok(())
}

/// What the script's first statement declares.
pub(crate) fn declaration(alloc: Global, script: &[u8]) -> Result<TableDecl, Fail>
    ensures { IfOk result (λ decl. IsTrue (is_plain decl)) }
{
    let pieces = lex(alloc, script)?;
    first_declared(alloc, pieces.as_slice())
}

fn first_declared(alloc: Global, pieces: &[Piece]) -> Result<TableDecl, Fail>
    requires { All (λ piece. IsTrue (is_lexed piece)) pieces.now }
    ensures { IfOk result (λ decl. IsTrue (is_plain decl)) }
{
    let piece = pieces.first().ok_or("no piece")?;
    match parse(alloc, piece) {
        Ok(Statement::Create(decl)) => Ok(decl),
        _ => Err("no declaration".into()),
    }
}

/// The schema that the script declares.
pub(crate) fn schema_of(alloc: Global, script: &[u8]) -> Result<Schema, Fail> {
    let decl = declaration(alloc, script)?;
    Ok(Schema::make(alloc, &decl).ok().ok_or("refused")?)
}

/// The schema of these columns and keys.
pub(crate) fn schema(alloc: Global, columns: &[u8], keys: &[u8]) -> Result<Schema, Fail> {
    let script = script(alloc, columns, keys)?;
    schema_of(alloc, script.as_slice())
}

/// A declaration of this key, of whatever columns, which says nothing of them.
pub(crate) fn question(alloc: Global, key: &[u8]) -> Result<TableDecl, Fail> {
    let script = script(alloc, b"z INT", key)?;
    declaration(alloc, script.as_slice())
}

/// Why a declaration or a key is refused.
pub(crate) fn cause(alloc: Global, refusal: &Refusal) -> Result<Vec<u8>, Memory> {
    match refusal {
        Refusal::NoColumn { column, table } => joined(
            alloc,
            &[b"no column ", column.as_slice(), b" in ", table.as_slice()],
        ),
        Refusal::ColumnTwice { column } => joined(alloc, &[column.as_slice(), b" twice"]),
        Refusal::Limit { what } => joined(alloc, &[b"limit of ", limited(*what)]),
        _ => joined(alloc, &[b"another refusal"]),
    }
}

fn joined(alloc: Global, parts: &[&[u8]]) -> Result<Vec<u8>, Memory> {
    let mut text = Vec::new(alloc);
    for part in parts {
        text.extend_from_slice(part)?;
    }
    Ok(text)
}

fn limited(what: LimitName) -> &'static [u8] {
    match what {
        LimitName::Name => b"names",
        LimitName::Columns => b"columns",
        LimitName::Keys => b"keys",
        LimitName::Nullable => b"nullable columns",
        LimitName::Tables => b"tables",
    }
}

/// Fails where another thing was told of the case than what is wanted.
pub(crate) fn assert_told(rt: &impl Abort, case: &[u8], told: &[u8], want: &[u8]) {
    let text = str::from_utf8(case).unwrap_or("a case");
    assert!(rt; told == want, "{text}");
}

/// What stands in the text before its first `|` and behind it, without the blanks around each.
pub(crate) fn cut(text: &[u8]) -> (&[u8], &[u8]) {
    match text.iter().position(|byte| *byte == b'|') {
        Some(i) => (text[..i].trim_ascii(), text[i + 1..].trim_ascii()),
        None => (text, b""),
    }
}

/// The value that a letter spells: a digit is that number, `-` is null, `e` is the empty text, and
/// another letter is the text of it.
pub(crate) fn value(alloc: Global, letter: u8) -> Result<Value, Memory> {
    match letter {
        b'0'..=b'9' => Ok(Value::Integer(i64::from(letter - b'0'))),
        b'-' => Ok(Value::Null),
        b'e' => text(alloc, b""),
        _ => text(alloc, &[letter]),
    }
}

// The text of a letter or of none.
fn text(alloc: Global, bytes: &[u8]) -> Result<Value, Memory> {
    match Words::read(alloc, bytes) {
        Ok(words) => Ok(Value::Text(words)),
        Err(_) => Err(Memory),
    }
}

/// Writes a letter for each value, as `value` reads it, and `?` for what no letter spells.
pub(crate) fn write_values(out: &mut Vec<u8>, values: &[Value]) -> Result<(), Memory> {
    for value in values {
        out.push(value_letter(value))?;
    }
    Ok(())
}

fn value_letter(value: &Value) -> u8 {
    match value {
        Value::Null => b'-',
        Value::Integer(n) => digit(u64::try_from(*n).unwrap_or(10)),
        Value::Text(words) => text_letter(words.as_slice()),
    }
}

fn text_letter(bytes: &[u8]) -> u8 {
    match bytes {
        [] => b'e',
        [letter] => *letter,
        _ => b'?',
    }
}

/// `+` for a certain key, and `?` for a possible one.
pub(crate) fn sort_letter(sort: Sort) -> u8 {
    match sort {
        Sort::Certain => b'+',
        Sort::Possible => b'?',
    }
}

/// The digit of a number below 10, and `?` for others.
pub(crate) fn digit(n: u64) -> u8 {
    match u8::try_from(n) {
        Ok(n) if n < 10 => b'0' + n,
        _ => b'?',
    }
}
