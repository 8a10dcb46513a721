ghost use Rattle.std.specs.Prelude.{◌≡◌, Some, length, option_map};
ghost use Rattle.pk_parse.specs.Reading.{Finds, FindsIf};
ghost use Rattle.pk_parse.specs.Create.{integer_form, text_form, length_within, varchar_at, form_at, mark_behind, mark_at, marks_at, column_behind, keyed_at, key_at, unique_at, primary_at, plain_key_at, key_part_at, part_key_at, part_at, create_at};
ghost use Rattle.pk_parse.specs.Literals.{number_of};

use crate::declared::declared;
use crate::lists::{Part, names_of, parens_of};
use crate::literals::number_within;
use crate::miss::{Miss, Parsed};
use crate::table_part::{ColumnForm, ColumnText, KeyPart, Mark, TablePart};
use crate::tokens::{after_word, digits_of, expect_symbol, expect_word, name_of};
use pk_lex::{Symbol, Token};
use pk_syntax::{KeyText, Statement};
use pk_values::{Items, Kind, Name, Sort};
use std::alloc::Global;

// TABLE name ( part , .. )
#[tactic(auto, unfolding(crate::specs::Create::create_at))]
pub(crate) fn create_of(alloc: Global, tokens: &[Token]) -> Parsed<'_, Statement>
    ensures { Finds result (create_at tokens.now) }
{
    let behind = expect_word(b"table", tokens)?;
    let (table, behind) = name_of(behind)?;
    let (parts, behind) = parens_of::<TablePart>(alloc, behind)?;
    let decl = declared(alloc, table, parts)?;
    Ok((Statement::Create(decl), behind))
}

impl Part for TablePart {
    ghost at = { part_at };

    #[tactic(auto, unfolding(crate::specs::Create::part_at))]
    fn read(alloc: Global, tokens: &[Token]) -> Parsed<'_, TablePart> {
        match name_of(tokens) {
            Ok((name, behind)) => column_behind(alloc, name, behind),
            Err(Miss::NotStatement) => part_key_of(alloc, tokens),
            Err(Miss::Memory) => Err(Miss::Memory),
        }
    }
}

// type { NOT NULL or UNIQUE or PRIMARY KEY }, behind the column's name.
#[tactic(auto, unfolding(crate::specs::Create::column_behind))]
fn column_behind(alloc: Global, name: Name, tokens: &[Token]) -> Parsed<'_, TablePart>
    ensures { Finds result (column_behind name tokens.now) }
{
    let (form, behind) = form_of(tokens)?;
    let (marks, behind) = marks_of(alloc, behind)?;
    Ok((TablePart::Column(ColumnText { name, form, marks }), behind))
}

// INTEGER, INT, BIGINT, TEXT, or VARCHAR ( number )
#[tactic(auto, unfolding(crate::specs::Create::form_at))]
fn form_of(tokens: &[Token]) -> Parsed<'_, ColumnForm>
    ensures { Finds result (form_at tokens.now) }
{
    if let Some(behind) = after_word(b"integer", tokens) {
        Ok((integer_form(), behind))
    } else if let Some(behind) = after_word(b"int", tokens) {
        Ok((integer_form(), behind))
    } else if let Some(behind) = after_word(b"bigint", tokens) {
        Ok((integer_form(), behind))
    } else if let Some(behind) = after_word(b"text", tokens) {
        Ok((text_form(255), behind))
    } else if let Some(behind) = after_word(b"varchar", tokens) {
        varchar_of(behind)
    } else {
        Err(Miss::NotStatement)
    }
}

fn integer_form() -> ColumnForm
    ensures { result ≡ integer_form }
{
    ColumnForm {
        kind: Kind::Integer,
        max: 0,
    }
}

fn text_form(max: u8) -> ColumnForm
    ensures { result ≡ text_form max }
{
    ColumnForm {
        kind: Kind::Text,
        max,
    }
}

// ( number ), with a value from 1 to 255.
#[tactic(auto, unfolding(crate::specs::Create::varchar_at))]
fn varchar_of(tokens: &[Token]) -> Parsed<'_, ColumnForm>
    ensures { Finds result (varchar_at tokens.now) }
{
    let inside = expect_symbol(Symbol::LeftParen, tokens)?;
    let (digits, behind) = digits_of(inside)?;
    let max = length_of(digits).ok_or(Miss::NotStatement)?;
    let behind = expect_symbol(Symbol::RightParen, behind)?;
    Ok((text_form(max), behind))
}

// The length that digits spell, where it is from 1 to 255.
fn length_of(digits: &[u8]) -> Option<u8>
    ensures { result ≡ length_within (number_of digits.now) }
{
    match number_within(255, digits) {
        None | Some(0) => None,
        Some(max) => Some(max as u8),
    }
}

// As many marks as there are.
fn marks_of(alloc: Global, tokens: &[Token]) -> Parsed<'_, Items<Mark>>
    ensures { Finds result (Some (marks_at (length tokens.now) tokens.now)) }
{
    let mut marks = Vec::new(alloc);
    let mut rest = tokens;
    for _ in 0..tokens.len() {
        let Some((mark, behind)) = mark_of(rest) else {
            break;
        };
        marks.push(mark)?;
        rest = behind;
    }
    Ok((Items::from_vec(marks), rest))
}

// NOT NULL, UNIQUE, or PRIMARY KEY
#[tactic(auto, unfolding(crate::specs::Create::mark_at))]
fn mark_of(tokens: &[Token]) -> Option<(Mark, &[Token])>
    ensures { FindsIf result (mark_at tokens.now) }
{
    if let Some(behind) = after_word(b"not", tokens) {
        mark_behind(Mark::NotNull, after_word(b"null", behind))
    } else if let Some(behind) = after_word(b"unique", tokens) {
        Some((Mark::Unique, behind))
    } else if let Some(behind) = after_word(b"primary", tokens) {
        mark_behind(Mark::Primary, after_word(b"key", behind))
    } else {
        None
    }
}

fn mark_behind(mark: Mark, behind: Option<&[Token]>) -> Option<(Mark, &[Token])>
    ensures { FindsIf result (mark_behind mark (option_map (λ ts. ts.now) behind.entry)) }
{
    match behind {
        Some(behind) => Some((mark, behind)),
        None => None,
    }
}

#[tactic(auto, unfolding(crate::specs::Create::part_key_at))]
fn part_key_of(alloc: Global, tokens: &[Token]) -> Parsed<'_, TablePart>
    ensures { Finds result (part_key_at tokens.now) }
{
    let (key, behind) = key_part_of(alloc, tokens)?;
    Ok((TablePart::Key(key), behind))
}

// POSSIBLE KEY names, CERTAIN KEY names, UNIQUE names, or PRIMARY KEY names
#[tactic(auto, unfolding(crate::specs::Create::key_part_at))]
fn key_part_of(alloc: Global, tokens: &[Token]) -> Parsed<'_, KeyPart>
    ensures { Finds result (key_part_at tokens.now) }
{
    if let Some(behind) = after_word(b"unique", tokens) {
        unique_of(alloc, behind)
    } else if let Some(behind) = after_word(b"primary", tokens) {
        primary_of(alloc, behind)
    } else {
        plain_key_of(alloc, tokens)
    }
}

// names, as a possible key.
#[tactic(auto, unfolding(crate::specs::Create::unique_at))]
fn unique_of(alloc: Global, tokens: &[Token]) -> Parsed<'_, KeyPart>
    ensures { Finds result (unique_at tokens.now) }
{
    let (columns, behind) = names_of(alloc, tokens)?;
    let key = KeyText {
        sort: Sort::Possible,
        columns,
    };
    Ok((
        KeyPart {
            key,
            primary: false,
        },
        behind,
    ))
}

// KEY names, as a primary key.
#[tactic(auto, unfolding(crate::specs::Create::primary_at))]
fn primary_of(alloc: Global, tokens: &[Token]) -> Parsed<'_, KeyPart>
    ensures { Finds result (primary_at tokens.now) }
{
    let (key, behind) = keyed_of(alloc, Sort::Certain, tokens)?;
    Ok((KeyPart { key, primary: true }, behind))
}

#[tactic(auto, unfolding(crate::specs::Create::plain_key_at))]
fn plain_key_of(alloc: Global, tokens: &[Token]) -> Parsed<'_, KeyPart>
    ensures { Finds result (plain_key_at tokens.now) }
{
    let (key, behind) = key_of(alloc, tokens)?;
    Ok((
        KeyPart {
            key,
            primary: false,
        },
        behind,
    ))
}

// CERTAIN KEY names, or POSSIBLE KEY names
#[tactic(auto, unfolding(crate::specs::Create::key_at))]
pub(crate) fn key_of(alloc: Global, tokens: &[Token]) -> Parsed<'_, KeyText>
    ensures { Finds result (key_at tokens.now) }
{
    if let Some(behind) = after_word(b"certain", tokens) {
        keyed_of(alloc, Sort::Certain, behind)
    } else if let Some(behind) = after_word(b"possible", tokens) {
        keyed_of(alloc, Sort::Possible, behind)
    } else {
        Err(Miss::NotStatement)
    }
}

// KEY names, as a key of this sort.
#[tactic(auto, unfolding(crate::specs::Create::keyed_at))]
fn keyed_of(alloc: Global, sort: Sort, tokens: &[Token]) -> Parsed<'_, KeyText>
    ensures { Finds result (keyed_at sort tokens.now) }
{
    let behind = expect_word(b"key", tokens)?;
    let (columns, behind) = names_of(alloc, behind)?;
    Ok((KeyText { sort, columns }, behind))
}
