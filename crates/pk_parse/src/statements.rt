ghost use Rattle.std.specs.Prelude.{◌≡◌};
ghost use Rattle.std.specs.Str.{bytes_eq};
ghost use Rattle.pk_parse.specs.Reading.{Reads, Finds};
ghost use Rattle.pk_parse.specs.Statements.{drop_at, session_at, show_at, implies_at, cover_at, examples_at, over_names_at, over_at, discover_at, readers, found_by, statement_at, read};

use crate::create::{create_of, key_of};
use crate::edits::{delete_of, insert_of, update_of};
use crate::lists::names_of;
use crate::miss::{Miss, Parsed};
use crate::queries::select_of;
use crate::tokens::{after_word, expect_word, name_of};
use pk_lex::Token;
use pk_syntax::Statement;
use pk_values::{Items, Name};
use std::alloc::Global;

// The statement that all of the tokens spell.
#[tactic(auto, unfolding(crate::specs::Statements::read))]
pub(crate) fn read(alloc: Global, tokens: &[Token]) -> Result<Statement, Miss>
    ensures { Reads result (read tokens.now) }
{
    let (statement, behind) = statement_of(alloc, tokens)?;
    if behind.is_empty() {
        Ok(statement)
    } else {
        Err(Miss::NotStatement)
    }
}

// The statement at the front of the tokens, and the tokens behind it.
#[tactic(auto, unfolding(crate::specs::Statements::statement_at))]
fn statement_of(alloc: Global, tokens: &[Token]) -> Parsed<'_, Statement>
    ensures { Finds result (statement_at tokens.now) }
{
    match tokens {
        [Token::Word(word), behind @ ..] => statement_behind(alloc, word.as_slice(), behind),
        [] | [Token::Number(_) | Token::Text(_) | Token::Symbol(_), ..] => Err(Miss::NotStatement),
    }
}

// The statement that begins with this word, and goes on in these tokens.
fn statement_behind<'a>(alloc: Global, word: &[u8], tokens: &'a [Token]) -> Parsed<'a, Statement>
    ensures { Finds result (found_by readers word.now tokens.now) }
{
    if is_same(word, b"create") {
        create_of(alloc, tokens)
    } else if is_same(word, b"insert") {
        insert_of(alloc, tokens)
    } else if is_same(word, b"select") {
        select_of(alloc, tokens)
    } else if is_same(word, b"update") {
        update_of(alloc, tokens)
    } else if is_same(word, b"delete") {
        delete_of(alloc, tokens)
    } else if is_same(word, b"drop") {
        drop_of(tokens)
    } else if is_same(word, b"begin") {
        Ok((Statement::Begin, tokens))
    } else if is_same(word, b"commit") {
        Ok((Statement::Commit, tokens))
    } else if is_same(word, b"rollback") {
        Ok((Statement::Rollback, tokens))
    } else if is_same(word, b"session") {
        session_of(tokens)
    } else if is_same(word, b"show") {
        show_of(tokens)
    } else if is_same(word, b"implies") {
        implies_of(alloc, tokens)
    } else if is_same(word, b"cover") {
        cover_of(tokens)
    } else if is_same(word, b"examples") {
        examples_of(tokens)
    } else if is_same(word, b"discover") {
        discover_of(alloc, tokens)
    } else if is_same(word, b"checkpoint") {
        Ok((Statement::Checkpoint, tokens))
    } else {
        Err(Miss::NotStatement)
    }
}

fn is_same(word: &[u8], other: &[u8]) -> bool
    ensures { result ≡ bytes_eq word.now other.now }
{
    word == other
}

// TABLE name
#[tactic(auto, unfolding(crate::specs::Statements::drop_at))]
fn drop_of(tokens: &[Token]) -> Parsed<'_, Statement>
    ensures { Finds result (drop_at tokens.now) }
{
    let behind = expect_word(b"table", tokens)?;
    let (table, behind) = name_of(behind)?;
    Ok((Statement::Drop { table }, behind))
}

// name
#[tactic(auto, unfolding(crate::specs::Statements::session_at))]
fn session_of(tokens: &[Token]) -> Parsed<'_, Statement>
    ensures { Finds result (session_at tokens.now) }
{
    let (name, behind) = name_of(tokens)?;
    Ok((Statement::Session { name }, behind))
}

// CREATE TABLE name
#[tactic(auto, unfolding(crate::specs::Statements::show_at))]
fn show_of(tokens: &[Token]) -> Parsed<'_, Statement>
    ensures { Finds result (show_at tokens.now) }
{
    let behind = expect_word(b"create", tokens)?;
    let behind = expect_word(b"table", behind)?;
    let (table, behind) = name_of(behind)?;
    Ok((Statement::Show { table }, behind))
}

// name CERTAIN KEY names, or name POSSIBLE KEY names
#[tactic(auto, unfolding(crate::specs::Statements::implies_at))]
fn implies_of(alloc: Global, tokens: &[Token]) -> Parsed<'_, Statement>
    ensures { Finds result (implies_at tokens.now) }
{
    let (table, behind) = name_of(tokens)?;
    let (key, behind) = key_of(alloc, behind)?;
    Ok((Statement::Implies { table, key }, behind))
}

// OF name
#[tactic(auto, unfolding(crate::specs::Statements::cover_at))]
fn cover_of(tokens: &[Token]) -> Parsed<'_, Statement>
    ensures { Finds result (cover_at tokens.now) }
{
    let behind = expect_word(b"of", tokens)?;
    let (table, behind) = name_of(behind)?;
    Ok((Statement::Cover { table }, behind))
}

// OF name
#[tactic(auto, unfolding(crate::specs::Statements::examples_at))]
fn examples_of(tokens: &[Token]) -> Parsed<'_, Statement>
    ensures { Finds result (examples_at tokens.now) }
{
    let behind = expect_word(b"of", tokens)?;
    let (table, behind) = name_of(behind)?;
    Ok((Statement::Examples { table }, behind))
}

// KEYS FROM name [ OVER names ]
#[tactic(auto, unfolding(crate::specs::Statements::discover_at))]
fn discover_of(alloc: Global, tokens: &[Token]) -> Parsed<'_, Statement>
    ensures { Finds result (discover_at tokens.now) }
{
    let behind = expect_word(b"keys", tokens)?;
    let behind = expect_word(b"from", behind)?;
    let (table, behind) = name_of(behind)?;
    let (over, behind) = over_of(alloc, behind)?;
    Ok((Statement::Discover { table, over }, behind))
}

// [ OVER names ]
#[tactic(auto, unfolding(crate::specs::Statements::over_at))]
fn over_of(alloc: Global, tokens: &[Token]) -> Parsed<'_, Option<Items<Name>>>
    ensures { Finds result (over_at tokens.now) }
{
    match after_word(b"over", tokens) {
        Some(behind) => over_names_of(alloc, behind),
        None => Ok((None, tokens)),
    }
}

#[tactic(auto, unfolding(crate::specs::Statements::over_names_at))]
fn over_names_of(alloc: Global, tokens: &[Token]) -> Parsed<'_, Option<Items<Name>>>
    ensures { Finds result (over_names_at tokens.now) }
{
    let (names, behind) = names_of(alloc, tokens)?;
    Ok((Some(names), behind))
}
