ghost use Rattle.std.specs.Prelude.{◌≡◌, ℕ, ◌≤◌, ◌<◌, ◌==◌, List, not, ◌&&◌, ◌||◌, [], ◌∷◌, length, nat_lt, IsTrue, MatchOption, IfSome};
ghost use Rattle.std.specs.List.{range_with_len};
ghost use Rattle.std.specs.Ordering.{as_partial_cmp};
ghost use Rattle.std.specs.Cmp.{partial_order_from_own_ties};
ghost use Rattle.std.specs.Cmp.Rules.{comparing};
ghost use Rattle.std.proofs.Common.{rules};
ghost use Rattle.pk_values.specs.ColumnSet.{IsColumnSet, has_column, columns, is_subset, column_set_cmp};

use std::cmp::Ordering;
use std::marker::Model;

/// How many columns there are at most that a set may hold: those from 0 to 31.
pub const COLUMN_LIMIT: u32 = 32;

/// A set of columns, numbered from 0 and below 32. Contracts see it as the number with the bit `c` for
/// each column `c` of the set, and `columns` lists them.
///
/// Sets are ordered by size, then by the ascending lists of their columns.
#[derive(Clone, Copy, Debug, PartialEq, Eq)]
pub struct ColSet {
    bits: u32,
}

impl Model for ColSet {
    ghost use Rattle.std.specs.Prelude.{ℕ};

    ghost Value = { ℕ };

    ghost use Rattle.pk_values.specs.ColumnSet.{IsColumnSet};

    ghost view = { λ set. set.bits };

    ghost invariant = { λ set. IsColumnSet set.bits };

    ghost inverse = { λ n. record { bits = n } };
}

impl ColSet {
    /// The set of no column.
    pub fn empty() -> ColSet
        ensures set { IsColumnSet result }
        ensures none { columns result ≡ [] }
    {
        ColSet { bits: 0 }
    }

    /// The set of the columns below `n`.
    pub fn below(n: u32) -> ColSet
        requires { n ≤ 32 }
        ensures set { IsColumnSet result }
        ensures members { (k : ℕ) → has_column result k ≡ nat_lt k n }
        ensures listed { columns result ≡ range_with_len 0 n }
    {
        match u32::MAX.checked_shr(COLUMN_LIMIT - n) {
            Some(bits) => ColSet { bits },
            None => ColSet { bits: 0 },
        }
    }

    /// The set with column `c` besides.
    pub fn with(self, c: u32) -> ColSet
        requires { c < 32 }
        ensures set { IsColumnSet result }
        ensures members { (k : ℕ) → has_column result k ≡ (k == c || has_column self k) }
    {
        ColSet {
            bits: self.bits | 1 << c,
        }
    }

    /// The set without column `c`.
    pub fn without(self, c: u32) -> ColSet
        requires { c < 32 }
        ensures set { IsColumnSet result }
        ensures members { (k : ℕ) → has_column result k ≡ (not (k == c) && has_column self k) }
    {
        ColSet {
            bits: self.bits & !(1 << c),
        }
    }

    /// The columns of either set.
    pub fn plus(self, other: ColSet) -> ColSet
        ensures set { IsColumnSet result }
        ensures members { (k : ℕ) → has_column result k ≡ (has_column self k || has_column other k) }
    {
        ColSet {
            bits: self.bits | other.bits,
        }
    }

    /// The columns of this set that the other doesn't have.
    pub fn minus(self, other: ColSet) -> ColSet
        ensures set { IsColumnSet result }
        ensures members { (k : ℕ) → has_column result k ≡ (has_column self k && not (has_column other k)) }
    {
        ColSet {
            bits: self.bits & !other.bits,
        }
    }

    /// Whether column `c` is in the set. No column from 32 on is.
    pub fn has(self, c: u32) -> bool
        ensures { result ≡ has_column self c }
    {
        c < COLUMN_LIMIT && self.bits >> c & 1 == 1
    }

    /// Whether each column of this set is in the other.
    pub fn is_inside(self, other: ColSet) -> bool
        ensures { result ≡ is_subset self other }
    {
        self.bits & !other.bits == 0
    }

    /// How many columns the set has, at most 32.
    pub fn len(self) -> u32
        ensures columns { result ≡ length (columns self) }
        ensures most { result ≤ 32 }
    {
        self.bits.count_ones()
    }

    /// The least column of the set; `None` exactly where the set is empty.
    pub fn first(self) -> Option<u32>
        ensures column { IfSome result (λ c. c < 32) }
        ensures least { MatchOption result (columns self ≡ []) (λ c. (rest : List ℕ) × (columns self ≡ c ∷ rest)) }
    {
        if self.bits == 0 {
            None
        } else {
            Some(self.bits.trailing_zeros())
        }
    }

    /// The least column, and the set of the others; `None` exactly where the set is empty. So a walk
    /// over the columns takes as many steps as there are columns.
    pub fn split_first(self) -> Option<(u32, ColSet)>
        ensures column { IfSome result (λ first. first.0 < 32) }
        ensures set { IfSome result (λ first. IsColumnSet first.1) }
        ensures parts { MatchOption result (columns self ≡ []) (λ first. columns self ≡ first.0 ∷ columns first.1) }
    {
        let c = self.first()?;
        Some((c, self.without(c)))
    }
}

// The order of two sets with as many columns: the one that has the first column at which they differ
// comes first.
fn of_one_size(a: u32, b: u32) -> Ordering
    requires { length (columns a) ≡ length (columns b) }
    ensures { result ≡ column_set_cmp a b }
{
    let differing = a ^ b;
    if differing == 0 {
        Ordering::Equal
    } else if a >> differing.trailing_zeros() & 1 == 1 {
        Ordering::Less
    } else {
        Ordering::Greater
    }
}

impl Ord for ColSet {
    ghost cmp = { column_set_cmp };

    ghost total = { Prim.search (comparing, rules) };

    ghost matches_partial_cmp = { Prim.search (comparing, rules) };

    ghost matches_eq = { Prim.search (comparing, rules) };

    fn cmp(&self, other: &ColSet) -> Ordering {
        match self.len().cmp(&other.len()) {
            Ordering::Equal => of_one_size(self.bits, other.bits),
            by_size => by_size,
        }
    }
}

impl PartialOrd for ColSet {
    ghost partial_cmp = { as_partial_cmp column_set_cmp };

    ghost laws = { partial_order_from_own_ties (Prim.search (comparing, rules)) (Prim.search (comparing, rules)) };

    fn partial_cmp(&self, other: &ColSet) -> Option<Ordering> {
        Some(self.cmp(other))
    }
}
