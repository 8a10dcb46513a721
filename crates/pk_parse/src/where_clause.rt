ghost use Rattle.pk_parse.specs.Reading.{Finds};
ghost use Rattle.pk_parse.specs.Where.{tested_at, where_at};

use crate::conditions::condition_of;
use crate::miss::Parsed;
use crate::tokens::after_word;
use pk_lex::Token;
use pk_syntax::Test;
use std::alloc::Global;

// [ WHERE cond ]
#[tactic(auto, unfolding(crate::specs::Where::where_at))]
pub(crate) fn where_of(alloc: Global, tokens: &[Token]) -> Parsed<'_, Option<Test>>
    ensures { Finds result (where_at tokens.now) }
{
    match after_word(b"where", tokens) {
        Some(behind) => tested_of(alloc, behind),
        None => Ok((None, tokens)),
    }
}

// cond, behind WHERE
fn tested_of(alloc: Global, tokens: &[Token]) -> Parsed<'_, Option<Test>>
    ensures { Finds result (tested_at tokens.now) }
{
    let (test, behind) = condition_of(alloc, tokens)?;
    Ok((Some(test), behind))
}
