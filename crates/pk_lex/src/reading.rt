//! Reads the lexeme at the front of some bytes.

ghost use Rattle.std.specs.Prelude.{◌≡◌, ◌+◌, ◌<◌, Some, length, IfOk, IsTrue, slice_index};
ghost use Rattle.std.specs.List.{prefix_len};
ghost use Rattle.std.specs.Char.{is_ascii_digit};
ghost use Rattle.pk_lex.specs.Symbols.{spelling, symbol_at};
ghost use Rattle.pk_lex.specs.Matching.{single_symbol, double_symbol};
ghost use Rattle.pk_lex.specs.Lexemes.{is_blank, begins_comment, stays_on_line, begins_word, continues_word, symbol_lexeme, symbol_more, front_of};

use crate::digits::Digits;
use crate::lexeme::{Fault, Front, Lexeme};
use crate::text::read_text;
use crate::token::{Symbol, Token};
use pk_values::{Memory, Name};
use std::alloc::Global;

/// The longest lexeme at the front of the bytes.
pub(crate) fn read_front(alloc: Global, bytes: &[u8]) -> Result<Front, Memory>
    requires { 0 < length bytes.now }
    ensures { IfOk result (λ front. front_of bytes.now ≡ Some front) }
{
    let first = bytes[0];
    if is_blank(first) {
        Ok(Front {
            lexeme: Lexeme::Gap,
            width: 1,
        })
    } else if begins_comment(bytes) {
        Ok(Front {
            lexeme: Lexeme::Gap,
            width: comment_width(bytes),
        })
    } else if begins_word(first) {
        read_word(alloc, bytes)
    } else if first.is_ascii_digit() {
        read_number(alloc, bytes)
    } else if first == b'\'' {
        read_text(alloc, bytes)
    } else {
        Ok(read_symbol(bytes))
    }
}

// The word at the front of the bytes.
fn read_word(alloc: Global, bytes: &[u8]) -> Result<Front, Memory>
    requires { IsTrue (begins_word (slice_index bytes.now 0)) }
    ensures { IfOk result (λ front. front_of bytes.now ≡ Some front) }
{
    let width = word_width(bytes);
    let name = Name::read(alloc, &bytes[..width])?.unwrap();
    Ok(Front {
        lexeme: Lexeme::Known(Token::Word(name)),
        width,
    })
}

// The number at the front of the bytes.
fn read_number(alloc: Global, bytes: &[u8]) -> Result<Front, Memory>
    requires { IsTrue (is_ascii_digit (slice_index bytes.now 0)) }
    ensures { IfOk result (λ front. front_of bytes.now ≡ Some front) }
{
    let width = number_width(bytes);
    let digits = Digits::copy(alloc, &bytes[..width])?;
    Ok(Front {
        lexeme: Lexeme::Known(Token::Number(digits)),
        width,
    })
}

// The symbol at the front of the bytes, or the byte that begins nothing.
fn read_symbol(bytes: &[u8]) -> Front
    ensures lexeme { result.lexeme ≡ symbol_lexeme (symbol_at bytes.now) }
    ensures width { result.width ≡ 1 + symbol_more (symbol_at bytes.now) }
{
    match symbol_at(bytes) {
        Some(symbol) => Front {
            lexeme: Lexeme::Known(Token::Symbol(symbol)),
            width: symbol_width(symbol),
        },
        None => Front {
            lexeme: Lexeme::Wrong(Fault::Bad),
            width: 1,
        },
    }
}

// The longest symbol at the front of the bytes.
fn symbol_at(bytes: &[u8]) -> Option<Symbol>
    ensures { result ≡ symbol_at bytes.now }
{
    match bytes {
        [first, second, ..] => double_symbol(*first, *second).or(single_symbol(*first)),
        [first] => single_symbol(*first),
        [] => None,
    }
}

// The symbol of these two bytes.
fn double_symbol(first: u8, second: u8) -> Option<Symbol>
    ensures { result ≡ double_symbol first second }
{
    match (first, second) {
        (b'<', b'=') => Some(Symbol::AtMost),
        (b'>', b'=') => Some(Symbol::AtLeast),
        (b'<', b'>') => Some(Symbol::UnequalAngle),
        (b'!', b'=') => Some(Symbol::UnequalBang),
        _ => None,
    }
}

// The symbol of this byte.
fn single_symbol(byte: u8) -> Option<Symbol>
    ensures { result ≡ single_symbol byte }
{
    match byte {
        b'(' => Some(Symbol::LeftParen),
        b')' => Some(Symbol::RightParen),
        b',' => Some(Symbol::Comma),
        b';' => Some(Symbol::Semicolon),
        b'*' => Some(Symbol::Star),
        b'=' => Some(Symbol::Equal),
        b'<' => Some(Symbol::Less),
        b'>' => Some(Symbol::Greater),
        b'-' => Some(Symbol::Minus),
        _ => None,
    }
}

// How many bytes the symbol has.
fn symbol_width(symbol: Symbol) -> usize
    ensures { result ≡ length (spelling symbol) }
{
    match symbol {
        Symbol::AtMost | Symbol::AtLeast | Symbol::UnequalAngle | Symbol::UnequalBang => 2,
        Symbol::LeftParen
        | Symbol::RightParen
        | Symbol::Comma
        | Symbol::Semicolon
        | Symbol::Star
        | Symbol::Equal
        | Symbol::Less
        | Symbol::Greater
        | Symbol::Minus => 1,
    }
}

// How many bytes there are before the first line feed.
fn comment_width(bytes: &[u8]) -> usize
    ensures { result ≡ prefix_len stays_on_line bytes.now }
{
    bytes.iter().take_while(|byte| **byte != b'\n').count()
}

// How many bytes at the front are bytes of a word.
fn word_width(bytes: &[u8]) -> usize
    ensures { result ≡ prefix_len continues_word bytes.now }
{
    bytes
        .iter()
        .take_while(|byte| continues_word(**byte))
        .count()
}

// How many bytes at the front are digits.
fn number_width(bytes: &[u8]) -> usize
    ensures { result ≡ prefix_len is_ascii_digit bytes.now }
{
    bytes
        .iter()
        .take_while(|byte| byte.is_ascii_digit())
        .count()
}

fn is_blank(byte: u8) -> bool
    ensures { result ≡ is_blank byte }
{
    matches!(byte, b' ' | b'\t' | b'\n' | b'\r')
}

fn begins_comment(bytes: &[u8]) -> bool
    ensures { result ≡ begins_comment bytes.now }
{
    bytes.starts_with(b"--")
}

fn begins_word(byte: u8) -> bool
    ensures { result ≡ begins_word byte }
{
    byte.is_ascii_alphabetic() || byte == b'_'
}

fn continues_word(byte: u8) -> bool
    ensures { result ≡ continues_word byte }
{
    byte.is_ascii_alphanumeric() || byte == b'_'
}
