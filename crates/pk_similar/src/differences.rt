ghost use Rattle.std.specs.Prelude.{◌≡◌, not, length, IsTrue};
ghost use Rattle.pk_values.specs.ColumnSet.{IsColumnSet, columns};
ghost use Rattle.pk_similar.specs.Similarity.{are_below, weak_entries, strong_entries, apart, not_same};

use crate::similarity::{are_known_equal, may_be_equal};
use pk_values::{ColSet, Row, Value};

/// The columns of `x` in which neither value is null and they differ. The rows are weakly similar on a
/// set inside `x` exactly where it has none of these.
pub fn apart(a: &Row, b: &Row, x: ColSet) -> ColSet
    requires a_wide { IsTrue (are_below (length a.now) (columns x)) }
    requires b_wide { IsTrue (are_below (length b.now) (columns x)) }
    ensures set { IsColumnSet result }
    ensures columns { columns result ≡ apart (columns x) a.now b.now }
{
    let mut found = ColSet::empty();
    let mut rest = x;
    while let Some(c) = rest.first() {
        rest = rest.without(c);
        if are_apart(a.value(c), b.value(c)) {
            found = found.with(c);
        }
    }
    found
}

/// The columns of `x` in which the values aren't both known and equal. The rows are strongly similar on
/// a set inside `x` exactly where it has none of these.
pub fn not_same(a: &Row, b: &Row, x: ColSet) -> ColSet
    requires a_wide { IsTrue (are_below (length a.now) (columns x)) }
    requires b_wide { IsTrue (are_below (length b.now) (columns x)) }
    ensures set { IsColumnSet result }
    ensures columns { columns result ≡ not_same (columns x) a.now b.now }
{
    let mut found = ColSet::empty();
    let mut rest = x;
    while let Some(c) = rest.first() {
        rest = rest.without(c);
        if may_differ(a.value(c), b.value(c)) {
            found = found.with(c);
        }
    }
    found
}

// Whether neither value is null and they differ.
fn are_apart(v: &Value, w: &Value) -> bool
    ensures { result ≡ not (weak_entries v.now w.now) }
{
    !may_be_equal(v, w)
}

// Whether the values aren't both known and equal.
fn may_differ(v: &Value, w: &Value) -> bool
    ensures { result ≡ not (strong_entries v.now w.now) }
{
    !are_known_equal(v, w)
}
