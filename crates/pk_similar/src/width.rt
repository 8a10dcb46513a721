ghost use Rattle.std.specs.Prelude.{◌≡◌, ◌≤◌};
ghost use Rattle.pk_values.specs.ColumnSet.{columns};
ghost use Rattle.pk_similar.specs.Similarity.{are_below};

use pk_values::ColSet;

/// Whether all columns of `x` lie below the width of a row, or below the number of kinds: what the other
/// calls require.
pub fn lies_below(x: ColSet, width: u32) -> bool
    requires { width ≤ 32 }
    ensures { result ≡ are_below width (columns x) }
{
    x.is_inside(ColSet::below(width))
}
