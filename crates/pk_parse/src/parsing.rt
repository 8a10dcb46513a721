ghost use Rattle.std.specs.Prelude.{IsTrue, IfOk};
ghost use Rattle.pk_lex.specs.Tokens.{is_lexed};
ghost use Rattle.pk_syntax.specs.Given.{IsGiven};
ghost use Rattle.pk_parse.specs.Parsed.{parsed, Parses};

use crate::miss::Miss;
use crate::statements::read;
use pk_lex::{Body, Piece};
use pk_syntax::Statement;
use std::alloc::Global;

/// Why a piece gave no statement.
#[derive(Clone, Copy, Debug, PartialEq, Eq)]
pub enum ParseErr {
    /// The piece's first fault is a bad character, which stands on this line.
    BadCharacter { line: u64 },
    /// The piece's first fault is a text that isn't closed, which begins on this line.
    UnclosedText { line: u64 },
    /// The tokens are no statement of the grammar; the piece begins on this line.
    NotStatement { line: u64 },
    /// Memory ran out.
    Memory,
}

/// The statement of a piece. `BadCharacter` and `UnclosedText` come exactly where the piece holds
/// that, and `NotStatement` exactly where its tokens are none of the grammar's statements. `Memory`
/// may come at any call.
#[tactic(auto, unfolding(crate::specs::Parsed::parsed))]
pub fn parse(alloc: Global, piece: &Piece) -> Result<Statement, ParseErr>
    ensures exact { Parses result (parsed piece.now) }
    // What `lex` gives is lexed.
    ensures given { IsTrue (is_lexed piece.now) → IfOk result (λ s. IsGiven s) }
{
    let line = piece.line;
    let tokens = match &piece.body {
        Body::Tokens(tokens) => tokens.as_slice(),
        Body::BadCharacter { line } => return Err(ParseErr::BadCharacter { line: *line }),
        Body::UnclosedText { line } => return Err(ParseErr::UnclosedText { line: *line }),
    };
    match read(alloc, tokens) {
        Ok(statement) => Ok(statement),
        Err(Miss::NotStatement) => Err(ParseErr::NotStatement { line }),
        Err(Miss::Memory) => Err(ParseErr::Memory),
    }
}
