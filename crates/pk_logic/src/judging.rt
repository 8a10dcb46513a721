ghost use Rattle.std.specs.Prelude.{◌≡◌, ◌<◌, map, length, IsTrue};
ghost use Rattle.pk_values.specs.Values.{is_null, value_at};
ghost use Rattle.pk_logic.specs.Truth.{least, greatest};
ghost use Rattle.pk_logic.specs.Conditions.{compared, null_test, side_value, side_fits, truth, is_judgeable, all_hold};

use crate::condition::{Cond, Op, Side};
use crate::truth::Truth;
use pk_values::{Row, Value};

/// What the condition is on the row. Each column that it names is one of the row's, and known values
/// that it compares are of one kind; `is_judgeable` tells.
///
/// It takes no memory, and goes as deep as the condition is nested. AND stops at the first member
/// that is false, OR at the first that is true.
#[cycle(judging)]
pub fn judge(cond: &Cond, row: &Row) -> Truth
    requires { IsTrue (is_judgeable row.now cond.now) }
    ensures { result ≡ truth row.now cond.now }
{
    match cond {
        Cond::Compare { column, op, with } => {
            compare(entry(row, *column), *op, side_entry(row, with))
        }
        Cond::IsNull { column, not } => test_null(entry(row, *column), *not),
        Cond::Not(denied) => judge(denied.get(), row).opposite(),
        Cond::All(members) => judge_all(members.as_slice(), row),
        Cond::Any(members) => judge_any(members.as_slice(), row),
    }
}

// AND: the least of what the members are, and true of none.
#[cycle(judging)]
#[tactic(auto, using(crate::proofs::TruthLemmas::lesser_false, crate::proofs::TruthLemmas::lesser_true))]
fn judge_all(members: &[Cond], row: &Row) -> Truth
    requires { IsTrue (all_hold (map (is_judgeable row.now) members.now)) }
    ensures { result ≡ least (map (truth row.now) members.now) }
{
    let mut all = Truth::True;
    for member in members {
        match judge(member, row) {
            Truth::False => return Truth::False,
            truth => all = all.and(truth),
        }
    }
    all
}

// OR: the greatest of what the members are, and false of none.
#[cycle(judging)]
#[tactic(auto, using(crate::proofs::TruthLemmas::greater_true, crate::proofs::TruthLemmas::greater_false))]
fn judge_any(members: &[Cond], row: &Row) -> Truth
    requires { IsTrue (all_hold (map (is_judgeable row.now) members.now)) }
    ensures { result ≡ greatest (map (truth row.now) members.now) }
{
    let mut any = Truth::False;
    for member in members {
        match judge(member, row) {
            Truth::True => return Truth::True,
            truth => any = any.or(truth),
        }
    }
    any
}

// What the operator says of the two entries, if both are known.
fn compare(a: &Value, op: Op, b: &Value) -> Truth
    ensures { result ≡ compared op a.now b.now }
{
    if is_null(a) || is_null(b) {
        return Truth::Unknown;
    }
    Truth::of(op.holds(a.compare(b)))
}

// Whether the entry is null, or whether it isn't.
fn test_null(value: &Value, not: bool) -> Truth
    ensures { result ≡ null_test not value.now }
{
    Truth::of(is_null(value) != not)
}

fn is_null(value: &Value) -> bool
    ensures { result ≡ is_null value.now }
{
    matches!(value, Value::Null)
}

// What stands on the other side of a comparison.
pub(crate) fn side_entry<'a>(row: &'a Row, side: &'a Side) -> &'a Value
    requires { IsTrue (side_fits row.now side.now) }
    ensures { result.now ≡ side_value row.now side.now }
{
    match side {
        Side::Known(value) => value,
        Side::Column(column) => entry(row, *column),
    }
}

// What stands in the column.
pub(crate) fn entry(row: &Row, column: u32) -> &Value
    requires { column < length row.now }
    ensures { result.now ≡ value_at row.now column }
{
    row.value(column)
}
