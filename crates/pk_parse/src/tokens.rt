ghost use Rattle.std.specs.Prelude.{◌≡◌, option_map};
ghost use Rattle.pk_parse.specs.Reading.{Finds, FindsBytes, Passes};
ghost use Rattle.pk_parse.specs.Tokens.{after_word, after_symbol, name_at, digits_at};

use crate::miss::{Miss, Parsed};
use pk_lex::{Symbol, Token};
use pk_syntax::is_reserved;
use pk_values::Name;

// The tokens behind this word, where they begin with it.
#[tactic(auto, unfolding(crate::specs::Tokens::after_word))]
pub(crate) fn after_word<'a>(word: &[u8], tokens: &'a [Token]) -> Option<&'a [Token]>
    ensures { option_map (λ behind. behind.now) result ≡ after_word word.now tokens.now }
{
    match tokens {
        [Token::Word(first), behind @ ..] => {
            if first.as_slice() == word {
                Some(behind)
            } else {
                None
            }
        }
        [] | [Token::Number(_) | Token::Text(_) | Token::Symbol(_), ..] => None,
    }
}

// The tokens behind this symbol, where they begin with it.
#[tactic(auto, unfolding(crate::specs::Tokens::after_symbol))]
pub(crate) fn after_symbol(symbol: Symbol, tokens: &[Token]) -> Option<&[Token]>
    ensures { option_map (λ behind. behind.now) result ≡ after_symbol symbol tokens.now }
{
    match tokens {
        [Token::Symbol(first), behind @ ..] => {
            if *first == symbol { Some(behind) } else { None }
        }
        [] | [Token::Word(_) | Token::Number(_) | Token::Text(_), ..] => None,
    }
}

// The tokens behind this word, which has to stand at their front.
pub(crate) fn expect_word<'a>(word: &[u8], tokens: &'a [Token]) -> Result<&'a [Token], Miss>
    ensures { Passes result (after_word word.now tokens.now) }
{
    after_word(word, tokens).ok_or(Miss::NotStatement)
}

// The tokens behind this symbol, which has to stand at their front.
pub(crate) fn expect_symbol(symbol: Symbol, tokens: &[Token]) -> Result<&[Token], Miss>
    ensures { Passes result (after_symbol symbol tokens.now) }
{
    after_symbol(symbol, tokens).ok_or(Miss::NotStatement)
}

// A name, and the tokens behind it.
#[tactic(auto, unfolding(crate::specs::Tokens::name_at))]
pub(crate) fn name_of(tokens: &[Token]) -> Parsed<'_, Name>
    ensures { Finds result (name_at tokens.now) }
{
    match tokens {
        [Token::Word(word), behind @ ..] => {
            if is_reserved(word.as_slice()) {
                Err(Miss::NotStatement)
            } else {
                Ok((word.copy()?, behind))
            }
        }
        [] | [Token::Number(_) | Token::Text(_) | Token::Symbol(_), ..] => Err(Miss::NotStatement),
    }
}

// The digits of a number, and the tokens behind it.
#[tactic(auto, unfolding(crate::specs::Tokens::digits_at))]
pub(crate) fn digits_of(tokens: &[Token]) -> Parsed<'_, &[u8]>
    ensures { FindsBytes result (digits_at tokens.now) }
{
    match tokens {
        [Token::Number(digits), behind @ ..] => Ok((digits.as_slice(), behind)),
        [] | [Token::Word(_) | Token::Text(_) | Token::Symbol(_), ..] => Err(Miss::NotStatement),
    }
}
