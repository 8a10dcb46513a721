//! Literals that are stored in a column or compared with one.

ghost use Rattle.std.specs.Prelude.{◌≡◌, List, ℕ, is_none, IfOk, IsTrue};
ghost use Rattle.pk_values.specs.Words.{is_words};
ghost use Rattle.pk_bind.specs.Literals.{unless_kind, kind_fault, wide_fault, unless_short, long_fault, unless_nullable, null_fault, stored_fault, has_words, stored_value};

use pk_schema::Column;
use pk_syntax::Literal;
use pk_values::{Bytes, Kind, Memory, Name, Refusal, Value, Words, WordsErr};
use std::alloc::Global;

/// What a literal is judged by, where it is to be stored in a column.
#[derive(Clone, Copy, Debug, PartialEq, Eq)]
pub(crate) enum Check {
    /// It has the kind of its column.
    Kind,
    /// It lies within 64 bits.
    Wide,
    /// It is no longer than its column allows.
    Length,
    /// It is null only where its column takes null.
    Null,
}

/// What the check finds in a literal that is to be stored in the column.
pub(crate) fn stored_fault(
    check: Check,
    column: &Column,
    literal: &Literal,
) -> Result<Option<Refusal>, Memory>
    ensures { IfOk result (λ r. r ≡ stored_fault check column.now literal.now) }
{
    match check {
        Check::Kind => kind_fault(column, literal),
        Check::Wide => Ok(wide_fault(literal)),
        Check::Length => long_fault(&column.name, column.max, literal),
        Check::Null => null_fault(column, literal),
    }
}

/// Whether the check finds nothing in the literal.
pub(crate) fn passes(check: Check, column: &Column, literal: &Literal) -> bool
    ensures { result ≡ is_none (stored_fault check column.now literal.now) }
{
    match check {
        Check::Kind => has_kind(column, literal),
        Check::Wide => has_64_bits(literal),
        Check::Length => is_short(column, literal),
        Check::Null => is_taken(column, literal),
    }
}

fn has_kind(column: &Column, literal: &Literal) -> bool
    ensures { result ≡ is_none (kind_fault column.now literal.now) }
{
    match literal {
        Literal::Null => true,
        Literal::Number(_) | Literal::Wide => is_same(column.kind, Kind::Integer),
        Literal::Text(_) => is_same(column.kind, Kind::Text),
    }
}

fn is_same(kind: Kind, other: Kind) -> bool
    ensures { (name : List ℕ) → result ≡ is_none (unless_kind name kind other) }
{
    match (kind, other) {
        (Kind::Integer, Kind::Integer) | (Kind::Text, Kind::Text) => true,
        (Kind::Integer, Kind::Text) | (Kind::Text, Kind::Integer) => false,
    }
}

fn has_64_bits(literal: &Literal) -> bool
    ensures { result ≡ is_none (wide_fault literal.now) }
{
    match literal {
        Literal::Wide => false,
        Literal::Null | Literal::Number(_) | Literal::Text(_) => true,
    }
}

fn is_short(column: &Column, literal: &Literal) -> bool
    ensures { result ≡ is_none (long_fault column.now.name column.now.max literal.now) }
{
    match literal {
        Literal::Text(bytes) => bytes.as_slice().len() <= usize::from(column.max),
        Literal::Null | Literal::Number(_) | Literal::Wide => true,
    }
}

// Null is taken where the column may have it, and all else is.
fn is_taken(column: &Column, literal: &Literal) -> bool
    ensures { result ≡ is_none (null_fault column.now literal.now) }
{
    match literal {
        Literal::Null => !column.not_null,
        Literal::Number(_) | Literal::Wide | Literal::Text(_) => true,
    }
}

/// A number where texts stand, or a text where numbers do; a number outside 64 bits is a number.
pub(crate) fn kind_fault(column: &Column, literal: &Literal) -> Result<Option<Refusal>, Memory>
    ensures { IfOk result (λ r. r ≡ kind_fault column.now literal.now) }
{
    match literal {
        Literal::Null => Ok(None),
        Literal::Number(_) | Literal::Wide => unless_kind(column, Kind::Integer),
        Literal::Text(_) => unless_kind(column, Kind::Text),
    }
}

/// The column is of another kind.
pub(crate) fn unless_kind(column: &Column, kind: Kind) -> Result<Option<Refusal>, Memory>
    ensures { IfOk result (λ r. r ≡ unless_kind column.now.name column.now.kind kind) }
{
    match (column.kind, kind) {
        (Kind::Integer, Kind::Integer) | (Kind::Text, Kind::Text) => Ok(None),
        (Kind::Integer, Kind::Text) | (Kind::Text, Kind::Integer) => Ok(Some(Refusal::WrongKind {
            column: column.name.copy()?,
        })),
    }
}

/// A number outside 64 bits.
pub(crate) fn wide_fault(literal: &Literal) -> Option<Refusal>
    ensures { result ≡ wide_fault literal.now }
{
    match literal {
        Literal::Wide => Some(Refusal::WideNumber),
        Literal::Null | Literal::Number(_) | Literal::Text(_) => None,
    }
}

/// A text of more than so many bytes, for the column of this name.
pub(crate) fn long_fault(
    name: &Name,
    most: u8,
    literal: &Literal,
) -> Result<Option<Refusal>, Memory>
    ensures { IfOk result (λ r. r ≡ long_fault name.now most literal.now) }
{
    match literal {
        Literal::Text(bytes) => unless_short(name, most, bytes),
        Literal::Null | Literal::Number(_) | Literal::Wide => Ok(None),
    }
}

fn unless_short(name: &Name, most: u8, bytes: &Bytes) -> Result<Option<Refusal>, Memory>
    ensures { IfOk result (λ r. r ≡ unless_short name.now most bytes.now) }
{
    let len = bytes.as_slice().len();
    if len <= usize::from(most) {
        Ok(None)
    } else {
        Ok(Some(Refusal::LongText {
            column: name.copy()?,
            bytes: len as u64,
            most: u64::from(most),
        }))
    }
}

fn null_fault(column: &Column, literal: &Literal) -> Result<Option<Refusal>, Memory>
    ensures { IfOk result (λ r. r ≡ null_fault column.now literal.now) }
{
    match literal {
        Literal::Null => unless_nullable(column),
        Literal::Number(_) | Literal::Wide | Literal::Text(_) => Ok(None),
    }
}

/// The column is without null.
pub(crate) fn unless_nullable(column: &Column) -> Result<Option<Refusal>, Memory>
    ensures { IfOk result (λ r. r ≡ unless_nullable column.now) }
{
    if column.not_null {
        Ok(Some(Refusal::NullValue {
            column: column.name.copy()?,
        }))
    } else {
        Ok(None)
    }
}

/// A literal as a value. A number outside 64 bits is refused before.
pub(crate) fn stored_value(alloc: Global, literal: &Literal) -> Result<Value, Memory>
    requires { IsTrue (has_words literal.now) }
    ensures { IfOk result (λ value. value ≡ stored_value literal.now) }
{
    match literal {
        Literal::Null | Literal::Wide => Ok(Value::Null),
        Literal::Number(n) => Ok(Value::Integer(*n)),
        Literal::Text(bytes) => Ok(Value::Text(words_of(alloc, bytes.as_slice())?)),
    }
}

// Reading bytes that are words fails for memory alone.
fn words_of(alloc: Global, bytes: &[u8]) -> Result<Words, Memory>
    requires { IsTrue (is_words bytes.now) }
    ensures { IfOk result (λ words. words ≡ bytes.now) }
{
    match Words::read(alloc, bytes) {
        Ok(words) => Ok(words),
        Err(WordsErr::Memory) => Err(Memory),
        Err(WordsErr::TooLong { .. }) => unreachable!(),
        Err(WordsErr::NotUtf8 { .. }) => unreachable!(),
    }
}
