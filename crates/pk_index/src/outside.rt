//! Ids that a look-up passes over.

ghost use Rattle.std.specs.Prelude.{◌≡◌};
ghost use Rattle.std.specs.List.Sorted.{IsStrictlySortedBy};
ghost use Rattle.std.specs.Ordering.{nat_cmp};
ghost use Rattle.pk_index.specs.Rows.{is_listed};

/// Whether the id is one of those outside, by a binary search.
pub(crate) fn is_outside(outside: &[u64], id: u64) -> bool
    requires { IsStrictlySortedBy nat_cmp outside.now }
    ensures { result ≡ is_listed outside.now id }
{
    outside.binary_search(&id).is_ok()
}
