ghost use Rattle.std.specs.Prelude.{◌≡◌, length, IsTrue, IfOk};
ghost use Rattle.pk_values.specs.ColumnSet.{columns};
ghost use Rattle.pk_similar.specs.Filling.{fill_entry, fill_values};
ghost use Rattle.pk_similar.specs.Similarity.{are_below, weak};

use pk_values::{ColSet, Kind, Memory, Row, Value};
use std::alloc::Global;

/// The values on the columns of `x`, in their order, that some completion gives both rows, which are
/// weakly similar there: the value of either that isn't null, and 0 or the empty text, by the column's
/// kind, where both are. Strongly similar rows have these values already.
pub fn fill(alloc: Global, a: &Row, b: &Row, kinds: &[Kind], x: ColSet) -> Result<Row, Memory>
    requires a_wide { IsTrue (are_below (length a.now) (columns x)) }
    requires b_wide { IsTrue (are_below (length b.now) (columns x)) }
    requires kinds_wide { IsTrue (are_below (length kinds.now) (columns x)) }
    requires similar { IsTrue (weak (columns x) a.now b.now) }
    ensures { IfOk result (λ row. row ≡ fill_values kinds.now (columns x) a.now b.now) }
{
    let mut values = Vec::with_capacity(alloc, x.len() as usize)?;
    let mut rest = x;
    while let Some(c) = rest.first() {
        rest = rest.without(c);
        values.push(common_value(alloc, a.value(c), b.value(c), kinds[c as usize])?)?;
    }
    Ok(Row::make(values))
}

// The value that isn't null, and the kind's blank where both are.
fn common_value(alloc: Global, v: &Value, w: &Value, kind: Kind) -> Result<Value, Memory>
    ensures { IfOk result (λ value. value ≡ fill_entry kind v.now w.now) }
{
    match (v, w) {
        (Value::Null, Value::Null) => Ok(Value::blank(alloc, kind)),
        (Value::Null, known) | (known, _) => known.copy(),
    }
}
