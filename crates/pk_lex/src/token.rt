use crate::digits::Digits;
use pk_values::{Bytes, Name};

/// A token of a script.
#[derive(Debug, Drop)]
pub enum Token {
    /// A letter or `_`, then letters, digits and `_`, with `A` to `Z` kept as `a` to `z`.
    Word(Name),
    /// One or more digits, as they stand in the script.
    Number(Digits),
    /// The bytes between two quotes, each `''` of the script being one `'`. They are UTF-8.
    Text(Bytes),
    /// One of the symbols below.
    Symbol(Symbol),
}

/// A symbol of a script.
#[derive(Clone, Copy, Debug, PartialEq, Eq)]
pub enum Symbol {
    LeftParen,
    RightParen,
    Comma,
    Semicolon,
    Star,
    Equal,
    Less,
    Greater,
    AtMost,
    AtLeast,
    /// `<>`
    UnequalAngle,
    /// `!=`
    UnequalBang,
    Minus,
}
