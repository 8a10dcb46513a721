ghost use Rattle.std.specs.Prelude.{◌≡◌, ◌<◌, map, length};
ghost use Rattle.pk_logic.specs.Conditions.{differ_in_kind, can_compare, side_fits, all_hold, is_judgeable};

use crate::condition::{Cond, Side};
use crate::judging::{entry, side_entry};
use pk_values::{Row, Value};

/// Whether `judge` may be asked: each column that the condition names is one of the row's, and known
/// values that it compares are of one kind. A null may be compared with anything.
///
/// Who knows the kinds of the row's columns need not ask: see `conditions_over_kinds_are_judgeable`.
#[cycle(fitting)]
pub fn is_judgeable(cond: &Cond, row: &Row) -> bool
    ensures { result ≡ is_judgeable row.now cond.now }
{
    match cond {
        Cond::Compare {
            column,
            op: _,
            with,
        } => can_compare(row, *column, with),
        Cond::IsNull { column, not: _ } => *column < row.width(),
        Cond::Not(denied) => is_judgeable(denied.get(), row),
        Cond::All(members) | Cond::Any(members) => are_judgeable(members.as_slice(), row),
    }
}

// Whether each member may be judged.
#[cycle(fitting)]
fn are_judgeable(members: &[Cond], row: &Row) -> bool
    ensures { result ≡ all_hold (map (is_judgeable row.now) members.now) }
{
    for member in members {
        if !is_judgeable(member, row) {
            return false;
        }
    }
    true
}

// Whether the column may be compared with the other side.
fn can_compare(row: &Row, column: u32, with: &Side) -> bool
    ensures { result ≡ can_compare row.now column with.now }
{
    if column >= row.width() || !fits(row, with) {
        return false;
    }
    !differ_in_kind(entry(row, column), side_entry(row, with))
}

// Whether a column on the other side is one of the row's.
fn fits(row: &Row, side: &Side) -> bool
    ensures { result ≡ side_fits row.now side.now }
{
    match side {
        Side::Known(_) => true,
        Side::Column(column) => *column < row.width(),
    }
}

// Whether one is a number and the other a text.
fn differ_in_kind(a: &Value, b: &Value) -> bool
    ensures { result ≡ differ_in_kind a.now b.now }
{
    matches!(
        (a, b),
        (Value::Integer(_), Value::Text(_)) | (Value::Text(_), Value::Integer(_))
    )
}
