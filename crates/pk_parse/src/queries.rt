ghost use Rattle.std.specs.Prelude.{◌≡◌};
ghost use Rattle.pk_parse.specs.Reading.{Finds};
ghost use Rattle.pk_parse.specs.Queries.{count_at, columns_at, what_at, direction_at, order_part_at, order_by_at, order_at, order_of_at, select_at};

use crate::lists::{Part, list_of};
use crate::miss::Parsed;
use crate::tokens::{after_symbol, after_word, expect_symbol, expect_word, name_of};
use crate::where_clause::where_of;
use pk_lex::{Symbol, Token};
use pk_syntax::{OrderPart, Select, Statement, What};
use pk_values::{Items, Name};
use std::alloc::Global;

// what FROM name [ WHERE cond ] [ ORDER BY .. ]
#[tactic(auto, unfolding(crate::specs::Queries::select_at))]
pub(crate) fn select_of(alloc: Global, tokens: &[Token]) -> Parsed<'_, Statement>
    ensures { Finds result (select_at tokens.now) }
{
    let (what, behind) = what_of(alloc, tokens)?;
    let behind = expect_word(b"from", behind)?;
    let (table, behind) = name_of(behind)?;
    let (cond, behind) = where_of(alloc, behind)?;
    let (order, behind) = order_behind(alloc, &what, behind)?;
    let select = Select {
        table,
        what,
        cond,
        order,
    };
    Ok((Statement::Select(select), behind))
}

// *, COUNT ( * ), or name , ..
#[tactic(auto, unfolding(crate::specs::Queries::what_at))]
fn what_of(alloc: Global, tokens: &[Token]) -> Parsed<'_, What>
    ensures { Finds result (what_at tokens.now) }
{
    if let Some(behind) = after_symbol(Symbol::Star, tokens) {
        Ok((What::All, behind))
    } else if let Some(behind) = after_word(b"count", tokens) {
        count_of(behind)
    } else {
        columns_of(alloc, tokens)
    }
}

// ( * )
#[tactic(auto, unfolding(crate::specs::Queries::count_at))]
fn count_of(tokens: &[Token]) -> Parsed<'_, What>
    ensures { Finds result (count_at tokens.now) }
{
    let behind = expect_symbol(Symbol::LeftParen, tokens)?;
    let behind = expect_symbol(Symbol::Star, behind)?;
    let behind = expect_symbol(Symbol::RightParen, behind)?;
    Ok((What::Count, behind))
}

// name , ..
#[tactic(auto, unfolding(crate::specs::Queries::columns_at))]
fn columns_of(alloc: Global, tokens: &[Token]) -> Parsed<'_, What>
    ensures { Finds result (columns_at tokens.now) }
{
    let (names, behind) = list_of::<Name>(alloc, tokens)?;
    Ok((What::Columns(names), behind))
}

// [ ORDER BY .. ] behind what is asked for: a count has no order.
fn order_behind<'a>(alloc: Global, what: &What, tokens: &'a [Token]) -> Parsed<'a, Items<OrderPart>>
    ensures { Finds result (order_of_at what.now tokens.now) }
{
    match what {
        What::All | What::Columns(_) => order_of(alloc, tokens),
        What::Count => Ok((Items::from_vec(Vec::new(alloc)), tokens)),
    }
}

// [ ORDER BY name [ ASC or DESC ] , .. ]
#[tactic(auto, unfolding(crate::specs::Queries::order_at))]
fn order_of(alloc: Global, tokens: &[Token]) -> Parsed<'_, Items<OrderPart>>
    ensures { Finds result (order_at tokens.now) }
{
    match after_word(b"order", tokens) {
        Some(behind) => order_by_of(alloc, behind),
        None => Ok((Items::from_vec(Vec::new(alloc)), tokens)),
    }
}

// BY name [ ASC or DESC ] , ..
#[tactic(auto, unfolding(crate::specs::Queries::order_by_at))]
fn order_by_of(alloc: Global, tokens: &[Token]) -> Parsed<'_, Items<OrderPart>>
    ensures { Finds result (order_by_at tokens.now) }
{
    let behind = expect_word(b"by", tokens)?;
    list_of::<OrderPart>(alloc, behind)
}

impl Part for OrderPart {
    ghost at = { order_part_at };

    #[tactic(auto, unfolding(crate::specs::Queries::order_part_at))]
    fn read(_alloc: Global, tokens: &[Token]) -> Parsed<'_, OrderPart> {
        let (column, behind) = name_of(tokens)?;
        let (down, behind) = direction_of(behind);
        Ok((OrderPart { column, down }, behind))
    }
}

// [ ASC or DESC ]: whether it is DESC.
#[tactic(auto, unfolding(crate::specs::Queries::direction_at))]
fn direction_of(tokens: &[Token]) -> (bool, &[Token])
    ensures down { result.0 ≡ (direction_at tokens.now).0 }
    ensures behind { result.1.now ≡ (direction_at tokens.now).1 }
{
    if let Some(behind) = after_word(b"asc", tokens) {
        (false, behind)
    } else if let Some(behind) = after_word(b"desc", tokens) {
        (true, behind)
    } else {
        (false, tokens)
    }
}
