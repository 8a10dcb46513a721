ghost use Rattle.std.specs.Prelude.{◌≡◌, List};
ghost use Rattle.std.specs.List.{prefix_len};
ghost use Rattle.pk_lex.specs.declared.token.Token.{Token as Entry};
ghost use Rattle.pk_parse.specs.Reading.{Finds};
ghost use Rattle.pk_parse.specs.Tokens.{Found, name_at};
ghost use Rattle.pk_parse.specs.Lists.{stays_inside, room_for_parts, list_at, parens_at, names_at};

use crate::miss::Parsed;
use crate::tokens::{after_symbol, expect_symbol, name_of};
use pk_lex::{Symbol, Token};
use pk_values::{Items, Name};
use std::alloc::Global;

/// What may stand in a list with commas.
pub(crate) trait Part: Drop {
    /// The part at the front of the tokens, and the tokens behind it.
    ghost at: { List Entry → Found Self };

    /// Reads it.
    fn read(alloc: Global, tokens: &[Token]) -> Parsed<'_, Self>
        ensures { Finds result (at tokens.now) };
}

impl Part for Name {
    ghost at = { name_at };

    fn read(_alloc: Global, tokens: &[Token]) -> Parsed<'_, Name> {
        name_of(tokens)
    }
}

// At least one part, with commas between them, and the tokens behind the last.
#[tactic(auto, unfolding(crate::specs::Lists::list_at))]
pub(crate) fn list_of<T: Part>(alloc: Global, tokens: &[Token]) -> Parsed<'_, Items<T>>
    ensures { Finds result (list_at T.at tokens.now) }
{
    let (first, mut rest) = T::read(alloc, tokens)?;
    let mut parts = Vec::with_capacity(alloc, room_for_parts(tokens))?;
    parts.push(first)?;
    for _ in 0..rest.len() {
        let Some(behind) = after_symbol(Symbol::Comma, rest) else {
            break;
        };
        let (part, behind) = T::read(alloc, behind)?;
        parts.push(part)?;
        rest = behind;
    }
    Ok((Items::from_vec(parts), rest))
}

// How many parts the list at the front of the tokens has where each is one token, but at most 32, since no
// row has more.
fn room_for_parts(tokens: &[Token]) -> usize
    ensures { result ≡ room_for_parts tokens.now }
{
    1 + (width_inside(tokens) / 2).min(31)
}

// How many tokens stand before the first `)`.
fn width_inside(tokens: &[Token]) -> usize
    ensures { result ≡ prefix_len stays_inside tokens.now }
{
    tokens
        .iter()
        .take_while(|token| stays_inside(token))
        .count()
}

// Whether the token isn't a `)`.
fn stays_inside(token: &Token) -> bool
    ensures { result ≡ stays_inside token.now }
{
    !matches!(token, Token::Symbol(Symbol::RightParen))
}

// The same in parentheses.
#[tactic(auto, unfolding(crate::specs::Lists::parens_at))]
pub(crate) fn parens_of<T: Part>(alloc: Global, tokens: &[Token]) -> Parsed<'_, Items<T>>
    ensures { Finds result (parens_at T.at tokens.now) }
{
    let inside = expect_symbol(Symbol::LeftParen, tokens)?;
    let (parts, behind) = list_of::<T>(alloc, inside)?;
    let behind = expect_symbol(Symbol::RightParen, behind)?;
    Ok((parts, behind))
}

// Names in parentheses, or nothing in parentheses.
#[tactic(auto, unfolding(crate::specs::Lists::names_at))]
pub(crate) fn names_of(alloc: Global, tokens: &[Token]) -> Parsed<'_, Items<Name>>
    ensures { Finds result (names_at tokens.now) }
{
    let inside = expect_symbol(Symbol::LeftParen, tokens)?;
    match after_symbol(Symbol::RightParen, inside) {
        Some(behind) => Ok((Items::from_vec(Vec::new(alloc)), behind)),
        None => parens_of::<Name>(alloc, tokens),
    }
}
