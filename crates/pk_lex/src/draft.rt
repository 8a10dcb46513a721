ghost use Rattle.std.specs.Prelude.{◌≡◌, ◌∷◌, ◌++◌, [], Some, None, OnOk};
ghost use Rattle.std.specs.Option.{option_or};
ghost use Rattle.pk_lex.specs.Building.{piece_drafted};
ghost use Rattle.pk_lex.specs.Pieces.{body_of};

use crate::lexeme::Fault;
use crate::piece::{Body, Piece};
use crate::token::Token;
use pk_values::{Items, Memory};
use std::alloc::Global;

/// A piece in progress.
#[derive(Debug, Drop)]
pub(crate) struct Draft {
    /// The line of its first token or fault, if it has one.
    begins: Option<u64>,
    /// Its first fault, with its line, if it has one.
    fault: Option<(u64, Fault)>,
    tokens: Vec<Token>,
}

impl Draft {
    /// A piece with nothing in it.
    pub fn new(alloc: Global) -> Draft
        ensures begins { result.begins ≡ None }
        ensures fault { result.fault ≡ None }
        ensures tokens { result.tokens.items ≡ [] }
    {
        Draft {
            begins: None,
            fault: None,
            tokens: Vec::new(alloc),
        }
    }

    /// Puts a token of this line behind what the piece holds.
    pub fn add_token(&mut self, line: u64, token: Token) -> Result<(), Memory>
        ensures begins { OnOk result (self.new.begins ≡ option_or self.old.begins (Some line)) }
        ensures fault { OnOk result (self.new.fault ≡ self.old.fault) }
        ensures tokens { OnOk result (self.new.tokens.items ≡ self.old.tokens.items ++ token ∷ []) }
    {
        add(&mut self.tokens, token)?;
        self.begin(line);
        Ok(())
    }

    /// Puts a fault of this line behind what the piece holds.
    pub fn add_fault(&mut self, line: u64, fault: Fault)
        ensures begins { self.new.begins ≡ option_or self.old.begins (Some line) }
        ensures fault { self.new.fault ≡ option_or self.old.fault (Some (line, fault)) }
        ensures tokens { self.new.tokens.items ≡ self.old.tokens.items }
    {
        self.begin(line);
        self.fault = self.fault.or(Some((line, fault)));
    }

    /// The piece, unless it is empty.
    pub fn finish(self) -> Option<Piece>
        ensures { result ≡ piece_drafted self }
    {
        let Draft {
            begins,
            fault,
            tokens,
        } = self;
        let line = begins?;
        Some(Piece {
            line,
            body: body_of(fault, tokens),
        })
    }

    // Begins the piece on this line, unless it has begun.
    fn begin(&mut self, line: u64)
        ensures begins { self.new.begins ≡ option_or self.old.begins (Some line) }
        ensures fault { self.new.fault ≡ self.old.fault }
        ensures tokens { self.new.tokens.items ≡ self.old.tokens.items }
    {
        self.begins = self.begins.or(Some(line));
    }
}

// Puts the token behind the others. Room begins at one, since a script may have very many pieces of
// one token, and goes on at sixteen, which most pieces fit into.
fn add(tokens: &mut Vec<Token>, token: Token) -> Result<(), Memory>
    ensures { OnOk result (tokens.new.items ≡ tokens.old.items ++ token ∷ []) }
{
    if tokens.len() < 2 {
        tokens.reserve_exact(if tokens.is_empty() { 1 } else { 15 })?;
    }
    Ok(tokens.push(token)?)
}

// The fault, where there is one, else the tokens.
fn body_of(fault: Option<(u64, Fault)>, mut tokens: Vec<Token>) -> Body
    ensures { result ≡ body_of fault tokens.items }
{
    match fault {
        Some((line, Fault::Bad)) => Body::BadCharacter { line },
        Some((line, Fault::Unclosed)) => Body::UnclosedText { line },
        None => {
            tokens.shrink_to_fit();
            Body::Tokens(Items::from_vec(tokens))
        }
    }
}
