ghost use Rattle.std.specs.Prelude.{◌≡◌, ◌∷◌, ◌++◌, [], List, ℕ, None, IfOk, OnOk, option_to_list};
ghost use Rattle.pk_lex.specs.declared.lexeme.Lexeme.{Lexeme as Entry};
ghost use Rattle.pk_lex.specs.declared.lexeme.Lexeme.TheVariants.{Known};
ghost use Rattle.pk_lex.specs.Pieces.{pieces_of};
ghost use Rattle.pk_lex.specs.Tokens.{ends_piece};
ghost use Rattle.pk_lex.specs.Building.{piece_drafted, pieces_with};

use crate::draft::Draft;
use crate::lexeme::Lexeme;
use crate::piece::Piece;
use crate::token::{Symbol, Token};
use pk_values::Memory;
use std::alloc::Global;
use std::mem;

/// Makes pieces of lexemes that come one by one.
#[derive(Debug, Drop)]
pub(crate) struct PieceBuilder {
    /// The pieces that have ended.
    pieces: Vec<Piece>,
    draft: Draft,
}

impl PieceBuilder {
    /// No lexeme has come yet.
    pub fn new(alloc: Global) -> PieceBuilder
        ensures { (rest : List (ℕ × Entry)) → pieces_with result rest ≡ pieces_of rest }
    {
        PieceBuilder {
            pieces: Vec::new(alloc),
            draft: Draft::new(alloc),
        }
    }

    /// Takes the next lexeme, which stands on this line.
    pub fn add(&mut self, line: u64, lexeme: Lexeme) -> Result<(), Memory>
        ensures { OnOk result
            ((rest : List (ℕ × Entry)) → pieces_with self.new rest ≡ pieces_with self.old ((line, lexeme) ∷ rest)) }
    {
        match lexeme {
            Lexeme::Gap => Ok(()),
            Lexeme::Wrong(fault) => {
                self.draft.add_fault(line, fault);
                Ok(())
            }
            Lexeme::Known(token) => self.add_token(line, token),
        }
    }

    /// The pieces, where no lexeme is left.
    pub fn finish(mut self) -> Result<Vec<Piece>, Memory>
        ensures { IfOk result (λ v. v.items ≡ pieces_with self []) }
    {
        self.end_piece()?;
        let PieceBuilder { pieces, draft: _ } = self;
        Ok(pieces)
    }

    fn add_token(&mut self, line: u64, token: Token) -> Result<(), Memory>
        ensures { OnOk result
            ((rest : List (ℕ × Entry)) → pieces_with self.new rest ≡ pieces_with self.old ((line, Known token) ∷ rest)) }
    {
        if ends_piece(&token) {
            self.end_piece()
        } else {
            self.draft.add_token(line, token)
        }
    }

    // Ends the piece in progress, and begins another.
    fn end_piece(&mut self) -> Result<(), Memory>
        ensures pieces { OnOk result
            (self.new.pieces.items ≡ self.old.pieces.items ++ option_to_list (piece_drafted self.old.draft)) }
        ensures begins { OnOk result (self.new.draft.begins ≡ None) }
        ensures fault { OnOk result (self.new.draft.fault ≡ None) }
        ensures tokens { OnOk result (self.new.draft.tokens.items ≡ []) }
    {
        let empty = Draft::new(*self.pieces.allocator());
        let draft = mem::replace(&mut self.draft, empty);
        match draft.finish() {
            Some(piece) => Ok(self.pieces.push(piece)?),
            None => Ok(()),
        }
    }
}

// Whether the token is a `;`.
fn ends_piece(token: &Token) -> bool
    ensures { result ≡ ends_piece token.now }
{
    matches!(token, Token::Symbol(Symbol::Semicolon))
}
