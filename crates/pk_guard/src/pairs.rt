//! The first two rows that break a key, among rows of which some are changed.

ghost use Rattle.std.specs.Prelude.{◌≡◌, None, IsTrue, if◌then◌else◌, filter, find, option_map};
ghost use Rattle.std.specs.Option.{option_copied};
ghost use Rattle.pk_guard.specs.Breaks.{breaks, first_pair};
ghost use Rattle.pk_guard.specs.Changed.{IdsAscend, RowsAscend, stays, standing};
ghost use Rattle.pk_guard.specs.Splits.{first_between, is_wide, AreWide};

use crate::by_id::{split_at_id, stays};
use pk_similar::{strong, weak};
use pk_values::{KeyDecl, Placed, Sort};

// Whether the two rows break the key.
fn breaks(key: &KeyDecl, p: &Placed, q: &Placed) -> bool
    requires p_wide { IsTrue (is_wide key.now p.now) }
    requires q_wide { IsTrue (is_wide key.now q.now) }
    ensures { result ≡ breaks key.now p.now q.now }
{
    match key.sort {
        Sort::Certain => weak(&p.row, &q.row, key.columns),
        Sort::Possible => strong(&p.row, &q.row, key.columns),
    }
}

// The first of the rows that breaks the key with this one.
fn first_put<'a>(key: &KeyDecl, low: &Placed, put: &'a [Placed]) -> Option<&'a Placed>
    requires low_wide { IsTrue (is_wide key.now low.now) }
    requires put_wide { AreWide key.now put.now }
    ensures { option_copied result ≡ find (breaks key.now low.now) put.now }
{
    for row in put {
        if breaks(key, low, row) {
            return Some(row);
        }
    }
    None
}

// The first of the rows that stay which breaks the key with this one. Few break it, so that is asked
// first.
fn first_kept<'a>(
    key: &KeyDecl,
    low: &Placed,
    rows: &'a [Placed],
    gone: &[u64],
) -> Option<&'a Placed>
    requires low_wide { IsTrue (is_wide key.now low.now) }
    requires rows_wide { AreWide key.now rows.now }
    requires gone_ascend { IdsAscend gone.now }
    ensures { option_copied result ≡ find (breaks key.now low.now) (filter (stays gone.now) rows.now) }
{
    for row in rows {
        if breaks(key, low, row) && stays(row, gone) {
            return Some(row);
        }
    }
    None
}

// The first of the rows as they will stand which breaks the key with this one.
fn first_standing<'a>(
    key: &KeyDecl,
    low: &Placed,
    rows: &'a [Placed],
    gone: &[u64],
    put: &'a [Placed],
) -> Option<&'a Placed>
    requires low_wide { IsTrue (is_wide key.now low.now) }
    requires rows_wide { AreWide key.now rows.now }
    requires put_wide { AreWide key.now put.now }
    requires rows_ascend { RowsAscend rows.now }
    requires gone_ascend { IdsAscend gone.now }
    requires put_ascend { RowsAscend put.now }
    ensures { option_copied result ≡ find (breaks key.now low.now) (standing gone.now put.now rows.now) }
{
    let mut kept = rows;
    let mut left = put;
    while let Some((next, others)) = left.split_first() {
        let (before, behind) = split_at_id(kept, next.id);
        kept = behind;
        left = others;
        if let Some(high) = first_kept(key, low, before, gone) {
            return Some(high);
        }
        if breaks(key, low, next) {
            return Some(next);
        }
    }
    first_kept(key, low, kept, gone)
}

// The first of the rows that are put which breaks the key with this one, where this one stays.
fn first_partner<'a>(
    key: &KeyDecl,
    low: &Placed,
    gone: &[u64],
    put: &'a [Placed],
) -> Option<&'a Placed>
    requires low_wide { IsTrue (is_wide key.now low.now) }
    requires put_wide { AreWide key.now put.now }
    requires gone_ascend { IdsAscend gone.now }
    ensures { option_copied result ≡ (if stays gone.now low.now then find (breaks key.now low.now) put.now else None) }
{
    if stays(low, gone) {
        first_put(key, low, put)
    } else {
        None
    }
}

// The first of the rows that stay which breaks the key with a row that is put, and the first row put
// that it does so with.
fn first_between<'a>(
    key: &KeyDecl,
    rows: &'a [Placed],
    gone: &[u64],
    put: &'a [Placed],
) -> Option<(&'a Placed, &'a Placed)>
    requires rows_wide { AreWide key.now rows.now }
    requires put_wide { AreWide key.now put.now }
    requires gone_ascend { IdsAscend gone.now }
    ensures { option_map (λ pair. (pair.0.now, pair.1.now)) result ≡ first_between key.now (filter (stays gone.now) rows.now) put.now }
{
    for low in rows {
        if let Some(high) = first_partner(key, low, gone, put) {
            return Some((low, high));
        }
    }
    None
}

/// The first two rows that break the key, among the rows as they will stand. No two of the old rows do,
/// so that only pairs of which one row is put are compared.
pub(crate) fn first_pair<'a>(
    key: &KeyDecl,
    rows: &'a [Placed],
    gone: &[u64],
    put: &'a [Placed],
) -> Option<(&'a Placed, &'a Placed)>
    requires rows_wide { AreWide key.now rows.now }
    requires put_wide { AreWide key.now put.now }
    requires rows_ascend { RowsAscend rows.now }
    requires gone_ascend { IdsAscend gone.now }
    requires put_ascend { RowsAscend put.now }
    requires unbroken { first_pair key.now rows.now ≡ None }
    ensures { option_map (λ pair. (pair.0.now, pair.1.now)) result ≡ first_pair key.now (standing gone.now put.now rows.now) }
{
    let mut kept = rows;
    let mut left = put;
    // Of the rows behind the last that is put no two break it.
    while let Some((next, others)) = left.split_first() {
        let (before, behind) = split_at_id(kept, next.id);
        if let Some(pair) = first_between(key, before, gone, left) {
            return Some(pair);
        }
        kept = behind;
        left = others;
        if let Some(high) = first_standing(key, next, kept, gone, left) {
            return Some((next, high));
        }
    }
    None
}
