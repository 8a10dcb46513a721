ghost use Rattle.std.specs.Prelude.{◌≡◌};
ghost use Rattle.pk_parse.specs.Reading.{Finds};
ghost use Rattle.pk_parse.specs.Literals.{number_of, number_within, plain_number, negative_number, null_at, negative_at, literal_at};
ghost use Rattle.pk_lex.specs.declared.token.Token.TheVariants.{Text as TextToken};

use crate::lists::Part;
use crate::miss::{Miss, Parsed};
use crate::tokens::{digits_of, expect_symbol, expect_word};
use pk_lex::{Symbol, Token};
use pk_syntax::Literal;
use pk_values::Bytes;
use std::alloc::Global;

impl Part for Literal {
    ghost at = { literal_at };

    #[tactic(auto, unfolding(crate::specs::Literals::literal_at))]
    fn read(alloc: Global, tokens: &[Token]) -> Parsed<'_, Literal> {
        match tokens {
            [] => Err(Miss::NotStatement),
            [Token::Word(_), ..] => null_of(tokens),
            [Token::Number(digits), behind @ ..] => Ok((plain_number(digits.as_slice()), behind)),
            [Token::Text(bytes), behind @ ..] => {
                let text = Bytes::copy(alloc, bytes.as_slice())?;
                Ok((Literal::Text(text), behind))
            }
            [Token::Symbol(_), ..] => negative_of(tokens),
        }
    }
}

// NULL
#[tactic(auto, unfolding(crate::specs::Literals::null_at))]
fn null_of(tokens: &[Token]) -> Parsed<'_, Literal>
    ensures { Finds result (null_at tokens.now) }
{
    let behind = expect_word(b"null", tokens)?;
    Ok((Literal::Null, behind))
}

// - number
#[tactic(auto, unfolding(crate::specs::Literals::negative_at))]
fn negative_of(tokens: &[Token]) -> Parsed<'_, Literal>
    ensures { Finds result (negative_at tokens.now) }
{
    let behind = expect_symbol(Symbol::Minus, tokens)?;
    let (digits, behind) = digits_of(behind)?;
    Ok((negative_number(digits), behind))
}

// What a number without a sign is.
fn plain_number(digits: &[u8]) -> Literal
    ensures { result ≡ plain_number (number_of digits.now) }
{
    match number_within(i64::MAX as u64, digits) {
        Some(number) => Literal::Number(number as i64),
        None => Literal::Wide,
    }
}

// What a number behind a minus sign is.
fn negative_number(digits: &[u8]) -> Literal
    ensures { result ≡ negative_number (number_of digits.now) }
{
    match number_within(1 << 63, digits) {
        Some(number) => Literal::Number((-i128::from(number)) as i64),
        None => Literal::Wide,
    }
}

// The number that digits spell, where it is at most `most`.
pub(crate) fn number_within(most: u64, digits: &[u8]) -> Option<u64>
    ensures { result ≡ number_within most (number_of digits.now) }
{
    let mut number: u64 = 0;
    for digit in digits {
        let next = 10 * u128::from(number) + u128::from(digit.saturating_sub(b'0'));
        if next > u128::from(most) {
            return None;
        }
        number = next as u64;
    }
    Some(number)
}
