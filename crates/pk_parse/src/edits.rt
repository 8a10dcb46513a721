ghost use Rattle.pk_parse.specs.Reading.{Finds};
ghost use Rattle.pk_parse.specs.Edits.{tuple_at, listed_at, list_or_none_at, set_at, insert_at, update_at, delete_at};

use crate::lists::{Part, list_of, parens_of};
use crate::miss::Parsed;
use crate::tokens::{after_symbol, expect_symbol, expect_word, name_of};
use crate::where_clause::where_of;
use pk_lex::{Symbol, Token};
use pk_syntax::{Delete, Insert, Literal, SetPart, Statement, Update};
use pk_values::{Items, Name};
use std::alloc::Global;

impl Part for Items<Literal> {
    ghost at = { tuple_at };

    #[tactic(auto, unfolding(crate::specs::Edits::tuple_at))]
    fn read(alloc: Global, tokens: &[Token]) -> Parsed<'_, Items<Literal>> {
        parens_of::<Literal>(alloc, tokens)
    }
}

impl Part for SetPart {
    ghost at = { set_at };

    #[tactic(auto, unfolding(crate::specs::Edits::set_at))]
    fn read(alloc: Global, tokens: &[Token]) -> Parsed<'_, SetPart> {
        let (column, behind) = name_of(tokens)?;
        let behind = expect_symbol(Symbol::Equal, behind)?;
        let (value, behind) = Literal::read(alloc, behind)?;
        Ok((SetPart { column, value }, behind))
    }
}

// INTO name [ ( name , .. ) ] VALUES tuple , ..
#[tactic(auto, unfolding(crate::specs::Edits::insert_at))]
pub(crate) fn insert_of(alloc: Global, tokens: &[Token]) -> Parsed<'_, Statement>
    ensures { Finds result (insert_at tokens.now) }
{
    let behind = expect_word(b"into", tokens)?;
    let (table, behind) = name_of(behind)?;
    let (columns, behind) = list_or_none_of(alloc, behind)?;
    let behind = expect_word(b"values", behind)?;
    let (rows, behind) = list_of::<Items<Literal>>(alloc, behind)?;
    let insert = Insert {
        table,
        columns,
        rows,
    };
    Ok((Statement::Insert(insert), behind))
}

// name SET name = literal , .. [ WHERE cond ]
#[tactic(auto, unfolding(crate::specs::Edits::update_at))]
pub(crate) fn update_of(alloc: Global, tokens: &[Token]) -> Parsed<'_, Statement>
    ensures { Finds result (update_at tokens.now) }
{
    let (table, behind) = name_of(tokens)?;
    let behind = expect_word(b"set", behind)?;
    let (sets, behind) = list_of::<SetPart>(alloc, behind)?;
    let (cond, behind) = where_of(alloc, behind)?;
    Ok((Statement::Update(Update { table, sets, cond }), behind))
}

// FROM name [ WHERE cond ]
#[tactic(auto, unfolding(crate::specs::Edits::delete_at))]
pub(crate) fn delete_of(alloc: Global, tokens: &[Token]) -> Parsed<'_, Statement>
    ensures { Finds result (delete_at tokens.now) }
{
    let behind = expect_word(b"from", tokens)?;
    let (table, behind) = name_of(behind)?;
    let (cond, behind) = where_of(alloc, behind)?;
    Ok((Statement::Delete(Delete { table, cond }), behind))
}

// The columns that an INSERT lists, if it lists any.
#[tactic(auto, unfolding(crate::specs::Edits::list_or_none_at))]
fn list_or_none_of(alloc: Global, tokens: &[Token]) -> Parsed<'_, Option<Items<Name>>>
    ensures { Finds result (list_or_none_at tokens.now) }
{
    match after_symbol(Symbol::LeftParen, tokens) {
        Some(_) => listed_of(alloc, tokens),
        None => Ok((None, tokens)),
    }
}

#[tactic(auto, unfolding(crate::specs::Edits::listed_at))]
fn listed_of(alloc: Global, tokens: &[Token]) -> Parsed<'_, Option<Items<Name>>>
    ensures { Finds result (listed_at tokens.now) }
{
    let (names, behind) = parens_of::<Name>(alloc, tokens)?;
    Ok((Some(names), behind))
}
