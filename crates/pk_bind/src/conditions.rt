//! What conditions over the columns of a table ask of a row.

ghost use Rattle.std.specs.Prelude.{◌≡◌, map, IfOk, IsTrue};
ghost use Rattle.std.specs.List.{list_all};
ghost use Rattle.pk_bind.specs.Conditions.{op_of, side_of, cond_of, cond_asked, operand_has_words, test_has_words, cond_has_words};

use crate::columns::column_at;
use crate::literals::stored_value;
use pk_logic::{self, Cond, Side};
use pk_schema::Schema;
use pk_syntax::{self, Operand, Test};
use pk_values::{Items, Memory};
use sqlite_items::Boxed;
use std::alloc::Global;

/// The condition, of columns by their places and of values, where there is one.
pub(crate) fn cond_asked(
    alloc: Global,
    schema: &Schema,
    cond: &Option<Test>,
) -> Result<Option<Cond>, Memory>
    requires { IsTrue (cond_has_words cond.now) }
    ensures { IfOk result (λ asked. asked ≡ cond_asked schema.now.columns cond.now) }
{
    match cond {
        None => Ok(None),
        Some(test) => Ok(Some(cond_of(alloc, schema, test)?)),
    }
}

#[cycle(binding)]
fn cond_of(alloc: Global, schema: &Schema, test: &Test) -> Result<Cond, Memory>
    requires { IsTrue (test_has_words test.now) }
    ensures { IfOk result (λ cond. cond ≡ cond_of schema.now.columns test.now) }
{
    match test {
        Test::Compare { column, op, with } => Ok(Cond::Compare {
            column: column_at(schema, column),
            op: op_of(*op),
            with: side_of(alloc, schema, with)?,
        }),
        Test::IsNull { column, not } => Ok(Cond::IsNull {
            column: column_at(schema, column),
            not: *not,
        }),
        Test::Not(denied) => {
            let cond = cond_of(alloc, schema, denied.get())?;
            Ok(Cond::Not(Boxed::new(alloc, cond)?))
        }
        Test::All(members) => Ok(Cond::All(conds_of(alloc, schema, members.as_slice())?)),
        Test::Any(members) => Ok(Cond::Any(conds_of(alloc, schema, members.as_slice())?)),
    }
}

#[cycle(binding)]
fn conds_of(alloc: Global, schema: &Schema, members: &[Test]) -> Result<Items<Cond>, Memory>
    requires { IsTrue (list_all (λ m. m) (map test_has_words members.now)) }
    ensures { IfOk result (λ conds. conds ≡ map (cond_of schema.now.columns) members.now) }
{
    let mut conds = Vec::with_capacity(alloc, members.len())?;
    for member in members {
        conds.push(cond_of(alloc, schema, member)?)?;
    }
    Ok(Items::from_vec(conds))
}

fn op_of(op: pk_syntax::Op) -> pk_logic::Op
    ensures { result ≡ op_of op }
{
    match op {
        pk_syntax::Op::Equal => pk_logic::Op::Equal,
        pk_syntax::Op::Unequal => pk_logic::Op::Unequal,
        pk_syntax::Op::Less => pk_logic::Op::Less,
        pk_syntax::Op::AtMost => pk_logic::Op::AtMost,
        pk_syntax::Op::Greater => pk_logic::Op::Greater,
        pk_syntax::Op::AtLeast => pk_logic::Op::AtLeast,
    }
}

fn side_of(alloc: Global, schema: &Schema, with: &Operand) -> Result<Side, Memory>
    requires { IsTrue (operand_has_words with.now) }
    ensures { IfOk result (λ side. side ≡ side_of schema.now.columns with.now) }
{
    match with {
        Operand::Known(literal) => Ok(Side::Known(stored_value(alloc, literal)?)),
        Operand::Column(name) => Ok(Side::Column(column_at(schema, name))),
    }
}
