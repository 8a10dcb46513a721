ghost use Rattle.std.specs.Prelude.{◌≡◌, length, IsTrue};
ghost use Rattle.pk_values.specs.ColumnSet.{columns};
ghost use Rattle.pk_similar.specs.Similarity.{are_below, weak_entries, strong_entries, weak, strong};

use pk_values::{ColSet, Row, Value};

/// Whether the rows are weakly similar on the columns of `x`: in each of them the values are equal or
/// one is null. So some completion of the two rows makes them equal there.
pub fn weak(a: &Row, b: &Row, x: ColSet) -> bool
    requires a_wide { IsTrue (are_below (length a.now) (columns x)) }
    requires b_wide { IsTrue (are_below (length b.now) (columns x)) }
    ensures { result ≡ weak (columns x) a.now b.now }
{
    let mut rest = x;
    while let Some(c) = rest.first() {
        rest = rest.without(c);
        if !may_be_equal(a.value(c), b.value(c)) {
            return false;
        }
    }
    true
}

/// Whether the rows are strongly similar on the columns of `x`: in each of them neither value is null,
/// and they are equal. So every completion of the two rows makes them equal there.
pub fn strong(a: &Row, b: &Row, x: ColSet) -> bool
    requires a_wide { IsTrue (are_below (length a.now) (columns x)) }
    requires b_wide { IsTrue (are_below (length b.now) (columns x)) }
    ensures { result ≡ strong (columns x) a.now b.now }
{
    let mut rest = x;
    while let Some(c) = rest.first() {
        rest = rest.without(c);
        if !are_known_equal(a.value(c), b.value(c)) {
            return false;
        }
    }
    true
}

/// Whether the values are equal, or one is null.
pub(crate) fn may_be_equal(v: &Value, w: &Value) -> bool
    ensures { result ≡ weak_entries v.now w.now }
{
    match (v, w) {
        (Value::Null, _) | (_, Value::Null) => true,
        _ => v.equals(w),
    }
}

/// Whether the values are equal, and neither is null.
pub(crate) fn are_known_equal(v: &Value, w: &Value) -> bool
    ensures { result ≡ strong_entries v.now w.now }
{
    match (v, w) {
        (Value::Null, _) | (_, Value::Null) => false,
        _ => v.equals(w),
    }
}
