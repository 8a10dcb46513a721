use crate::token::Token;
use pk_values::Items;

/// What stands between two semicolons of a script, or after the last one.
#[derive(Debug, Drop)]
pub struct Piece {
    /// The line of the piece's first token or fault, counted from 1.
    pub line: u64,
    pub body: Body,
}

/// What a piece holds.
#[derive(Debug, Drop)]
pub enum Body {
    /// At least one token, and no semicolon.
    Tokens(Items<Token>),
    /// The piece's first fault is a bad character on this line: a byte that begins no token, or a
    /// text between quotes that isn't UTF-8.
    BadCharacter { line: u64 },
    /// The piece's first fault is a text that begins on this line and that no quote closes.
    UnclosedText { line: u64 },
}
