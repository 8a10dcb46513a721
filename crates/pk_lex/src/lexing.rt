ghost use Rattle.std.specs.Prelude.{◌≡◌, IfOk, IsTrue, All};
ghost use Rattle.pk_lex.specs.Lexemes.{line_feeds};
ghost use Rattle.pk_lex.specs.Pieces.{pieces};
ghost use Rattle.pk_lex.specs.Tokens.{is_lexed};

use crate::builder::PieceBuilder;
use crate::lexeme::Front;
use crate::piece::Piece;
use crate::reading::read_front;
use pk_values::Memory;
use std::alloc::Global;

/// The pieces of a script, in order.
pub fn lex(alloc: Global, script: &[u8]) -> Result<Vec<Piece>, Memory>
    ensures pieces { IfOk result (λ v. v.items ≡ pieces script.now) }
    ensures lexed { IfOk result (λ v. All (λ piece. IsTrue (is_lexed piece)) v.items) }
{
    let mut builder = PieceBuilder::new(alloc);
    let mut line = 1;
    let mut rest = script;
    while !rest.is_empty() {
        let Front { lexeme, width } = read_front(alloc, rest)?;
        builder.add(line, lexeme)?;
        let (passed, behind) = rest.split_at(width);
        line += line_feeds(passed);
        rest = behind;
    }
    builder.finish()
}

// How many of the bytes are line feeds.
fn line_feeds(bytes: &[u8]) -> u64
    ensures { result ≡ line_feeds bytes.now }
{
    bytes.iter().filter(|byte| **byte == b'\n').count() as u64
}
