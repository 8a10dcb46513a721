ghost use Rattle.std.specs.Prelude.{◌≡◌, length, option_map};
ghost use Rattle.pk_parse.specs.Reading.{Finds};
ghost use Rattle.pk_parse.specs.Tokens.{after_word, name_at};
ghost use Rattle.pk_parse.specs.Conditions.{op_of, op_at, operand_at, column_operand, null_behind, null_test_at, comparison_at, column_test_at, negation_at, inside_at, unit_at, word_of, group, member_at, joined_at, members_at, with_first, condition_at};
ghost use Rattle.pk_parse.specs.ConditionEdges.{ConditionsAtTheirEdges};
ghost use Rattle.pk_parse.specs.ConditionGrammar.{ReadsConditions};

use crate::lists::Part;
use crate::miss::{Miss, Parsed};
use crate::tokens::{after_symbol, after_word, expect_symbol, expect_word, name_of};
use pk_lex::{Symbol, Token};
use pk_syntax::{Literal, Op, Operand, Test};
use pk_values::{Items, Name};
use sqlite_items::Boxed;
use std::alloc::Global;

// On so many levels units may stand: the outermost, and 64 below it.
const LEVELS: u32 = 65;

// What joins members: AND joins units, OR what AND has joined.
#[derive(Clone, Copy, Debug)]
enum Joint {
    And,
    Or,
}

/// A condition is read exactly where the grammar, which says by cases how each is spelled, has it.
pub fn conditions_are_read()
    ensures { ReadsConditions }
{}

/// Conditions, computed at the edges.
pub fn conditions_at_their_edges()
    ensures { ConditionsAtTheirEdges }
{}

// The condition at the front of the tokens, and the tokens behind it. What is read next is told by the
// token at the front alone, so each is read once, and what is too deep is refused where it begins.
#[tactic(auto, unfolding(crate::specs::Conditions::condition_at))]
pub(crate) fn condition_of(alloc: Global, tokens: &[Token]) -> Parsed<'_, Test>
    ensures { Finds result (condition_at tokens.now) }
{
    joined_of(alloc, Joint::Or, LEVELS, tokens)
}

// Members with the joint's word between each two.
#[cycle(conditions)]
fn joined_of(alloc: Global, joint: Joint, levels: u32, tokens: &[Token]) -> Parsed<'_, Test>
    ensures { Finds result (joined_at joint (member_at joint (unit_at levels)) tokens.now) }
{
    let (first, rest) = member_of(alloc, joint, levels, tokens)?;
    let Some(_) = after_joint(joint, rest) else {
        return Ok((first, rest));
    };
    let (members, rest) = members_of(alloc, joint, levels, first, rest)?;
    Ok((group_of(joint, members), rest))
}

// The first member, and each that follows behind the joint's word.
#[cycle(conditions)]
fn members_of(
    alloc: Global,
    joint: Joint,
    levels: u32,
    first: Test,
    tokens: &[Token],
) -> Parsed<'_, Items<Test>>
    ensures { Finds result (with_first first (members_at (word_of joint) (member_at joint (unit_at levels)) (length tokens.now) tokens.now)) }
{
    let mut members = Vec::new(alloc);
    members.push(first)?;
    let mut rest = tokens;
    for _ in 0..tokens.len() {
        let Some(behind) = after_joint(joint, rest) else {
            break;
        };
        let (member, behind) = member_of(alloc, joint, levels, behind)?;
        members.push(member)?;
        rest = behind;
    }
    Ok((Items::from_vec(members), rest))
}

// What the joint joins.
#[cycle(conditions)]
fn member_of(alloc: Global, joint: Joint, levels: u32, tokens: &[Token]) -> Parsed<'_, Test>
    ensures { Finds result (member_at joint (unit_at levels) tokens.now) }
{
    match joint {
        Joint::And => unit_of(alloc, levels, tokens),
        Joint::Or => joined_of(alloc, Joint::And, levels, tokens),
    }
}

// A unit, where it stands on one of so many levels.
#[cycle(conditions)]
#[tactic(auto, unfolding(crate::specs::Conditions::unit_at))]
fn unit_of(alloc: Global, levels: u32, tokens: &[Token]) -> Parsed<'_, Test>
    ensures { Finds result (unit_at levels tokens.now) }
{
    if levels == 0 {
        return Err(Miss::NotStatement);
    }
    if let Some(behind) = after_word(b"not", tokens) {
        return negation_of(alloc, levels - 1, behind);
    }
    if let Some(inside) = after_symbol(Symbol::LeftParen, tokens) {
        return inside_of(alloc, levels - 1, inside);
    }
    column_test_of(alloc, tokens)
}

// Behind NOT: the unit that it denies.
#[cycle(conditions)]
fn negation_of(alloc: Global, levels: u32, tokens: &[Token]) -> Parsed<'_, Test>
    ensures { Finds result (negation_at (unit_at levels) tokens.now) }
{
    let (test, rest) = unit_of(alloc, levels, tokens)?;
    Ok((Test::Not(Boxed::new(alloc, test)?), rest))
}

// Behind an opening parenthesis: a condition, and the closing one.
#[cycle(conditions)]
fn inside_of(alloc: Global, levels: u32, tokens: &[Token]) -> Parsed<'_, Test>
    ensures { Finds result (inside_at (unit_at levels) tokens.now) }
{
    let (test, rest) = joined_of(alloc, Joint::Or, levels, tokens)?;
    let behind = expect_symbol(Symbol::RightParen, rest)?;
    Ok((test, behind))
}

// The tokens behind the joint's word, where they begin with it.
fn after_joint(joint: Joint, tokens: &[Token]) -> Option<&[Token]>
    ensures { option_map (λ behind. behind.now) result ≡ after_word (word_of joint) tokens.now }
{
    match joint {
        Joint::And => after_word(b"and", tokens),
        Joint::Or => after_word(b"or", tokens),
    }
}

// The members as one condition.
fn group_of(joint: Joint, members: Items<Test>) -> Test
    ensures { result ≡ group joint members }
{
    match joint {
        Joint::And => Test::All(members),
        Joint::Or => Test::Any(members),
    }
}

// What is asked of one column.
#[tactic(auto, unfolding(crate::specs::Conditions::column_test_at))]
fn column_test_of(alloc: Global, tokens: &[Token]) -> Parsed<'_, Test>
    ensures { Finds result (column_test_at tokens.now) }
{
    let (column, rest) = name_of(tokens)?;
    match after_word(b"is", rest) {
        Some(behind) => null_test_of(column, behind),
        None => comparison_of(alloc, column, rest),
    }
}

// Behind a column and IS: [ NOT ] NULL
#[tactic(auto, unfolding(crate::specs::Conditions::null_test_at))]
fn null_test_of(column: Name, tokens: &[Token]) -> Parsed<'_, Test>
    ensures { Finds result (null_test_at column tokens.now) }
{
    match after_word(b"not", tokens) {
        Some(behind) => null_of(column, true, behind),
        None => null_of(column, false, tokens),
    }
}

// NULL, behind a column and IS or IS NOT.
fn null_of(column: Name, not: bool, tokens: &[Token]) -> Parsed<'_, Test>
    ensures { Finds result (null_behind column not tokens.now) }
{
    let behind = expect_word(b"null", tokens)?;
    Ok((Test::IsNull { column, not }, behind))
}

// Behind a column: how it is compared, and with what.
#[tactic(auto, unfolding(crate::specs::Conditions::comparison_at))]
fn comparison_of(alloc: Global, column: Name, tokens: &[Token]) -> Parsed<'_, Test>
    ensures { Finds result (comparison_at column tokens.now) }
{
    let (op, rest) = op_of(tokens)?;
    let (with, behind) = operand_of(alloc, rest)?;
    Ok((Test::Compare { column, op, with }, behind))
}

// A comparison's symbol.
#[tactic(auto, unfolding(crate::specs::Conditions::op_at))]
fn op_of(tokens: &[Token]) -> Parsed<'_, Op>
    ensures { Finds result (op_at tokens.now) }
{
    match tokens {
        [Token::Symbol(symbol), behind @ ..] => match op_for(*symbol) {
            Some(op) => Ok((op, behind)),
            None => Err(Miss::NotStatement),
        },
        [] | [Token::Word(_) | Token::Number(_) | Token::Text(_), ..] => Err(Miss::NotStatement),
    }
}

// The comparison that a symbol stands for.
fn op_for(symbol: Symbol) -> Option<Op>
    ensures { result ≡ op_of symbol }
{
    match symbol {
        Symbol::Equal => Some(Op::Equal),
        Symbol::UnequalAngle | Symbol::UnequalBang => Some(Op::Unequal),
        Symbol::Less => Some(Op::Less),
        Symbol::AtMost => Some(Op::AtMost),
        Symbol::Greater => Some(Op::Greater),
        Symbol::AtLeast => Some(Op::AtLeast),
        Symbol::LeftParen
        | Symbol::RightParen
        | Symbol::Comma
        | Symbol::Semicolon
        | Symbol::Star
        | Symbol::Minus => None,
    }
}

// A literal, or the name of a column.
#[tactic(auto, unfolding(crate::specs::Conditions::operand_at))]
fn operand_of(alloc: Global, tokens: &[Token]) -> Parsed<'_, Operand>
    ensures { Finds result (operand_at tokens.now) }
{
    match Literal::read(alloc, tokens) {
        Ok((literal, behind)) => Ok((Operand::Known(literal), behind)),
        Err(Miss::NotStatement) => column_operand_of(tokens),
        Err(Miss::Memory) => Err(Miss::Memory),
    }
}

fn column_operand_of(tokens: &[Token]) -> Parsed<'_, Operand>
    ensures { Finds result (column_operand (name_at tokens.now)) }
{
    let (column, behind) = name_of(tokens)?;
    Ok((Operand::Column(column), behind))
}
