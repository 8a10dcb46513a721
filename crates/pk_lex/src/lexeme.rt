use crate::token::Token;

/// What stands at a place of a script.
#[derive(Debug, Drop)]
pub(crate) enum Lexeme {
    /// What stands between tokens: a blank or a comment.
    Gap,
    Known(Token),
    Wrong(Fault),
}

/// What stands where no token can be read.
#[derive(Clone, Copy, Debug, PartialEq, Eq)]
pub(crate) enum Fault {
    /// A bad character: a byte that begins no token, or a closed text that isn't UTF-8.
    Bad,
    /// A text that no quote closes.
    Unclosed,
}

/// The lexeme at the front of some bytes.
#[derive(Debug, Drop)]
pub(crate) struct Front {
    pub lexeme: Lexeme,
    /// How many of the bytes it takes, at least one.
    pub width: usize,
}
