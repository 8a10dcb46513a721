//! The largest sets of columns that a schema leaves open, each with two rows.

ghost use Rattle.std.specs.Prelude.{◌≡◌, ◌++◌, [], ◌∷◌, All, map, filter, if◌then◌else◌, IfOk, IfErr, OnOk};
ghost use Rattle.pk_values.specs.ColumnSet.{IsColumnSet};
ghost use Rattle.pk_transversal.specs.Transversals.{transversals};
ghost use Rattle.pk_rule.specs.Plain.{IsPlain, plain_of};
ghost use Rattle.pk_examples.specs.Family.{bears_on, edges, outside, case_over, cases_of, examples, IsFew, IsCause, IsSortCause};

use crate::case::Case;
use crate::family_err::FamilyErr;
use crate::refuting::two_rows;
use pk_rule::shapes_are_plain;
use pk_schema::Schema;
use pk_transversal::{TransErr, minimal, transversals_are_listed};
use pk_values::{ColSet, KeyDecl, Memory, Sort};
use std::alloc::Global;

/// How many examples of one sort are listed at most.
pub const MOST_CASES: u32 = 4_096;

/// For certain keys, and then for possible ones: the largest sets of columns whose key the schema doesn't
/// imply, in the order of the sets of columns outside them, each with a table of the schema of two rows
/// in which the key fails. So a key over the schema's columns is implied exactly where it holds in each
/// of these tables (`examples_tell_the_keys`).
///
/// A declared key bears on a sort where it alone implies the key of that sort over all of its columns; the
/// columns of those that do are the sort's edges. `TooMany` comes exactly where the edges of a sort, of
/// certain keys first, have more than 4,096 minimal transversals after some number of them, counted as
/// `pk_transversal::minimal` counts, and tells the least such number. `Memory` may come at any schema.
pub fn family(alloc: Global, schema: &Schema) -> Result<Vec<Case>, FamilyErr>
    ensures cases { IfOk result (λ cases. cases.items ≡ examples (plain_of schema.now)) }
    ensures few { OnOk result (IsFew Sort.Certain (plain_of schema.now) × IsFew Sort.Possible (plain_of schema.now)) }
    ensures cause { IfErr result (IsCause (plain_of schema.now)) }
{
    let mut cases = Vec::new(alloc);
    add_cases(alloc, schema, Sort::Certain, &mut cases)?;
    add_cases(alloc, schema, Sort::Possible, &mut cases)?;
    Ok(cases)
}

// Adds the cases of one sort.
fn add_cases(
    alloc: Global,
    schema: &Schema,
    sort: Sort,
    cases: &mut Vec<Case>,
) -> Result<(), FamilyErr>
    ensures cases { OnOk result (cases.new.items ≡ cases.old.items ++ cases_of sort (plain_of schema.now)) }
    ensures few { OnOk result (IsFew sort (plain_of schema.now)) }
    ensures cause { IfErr result (IsSortCause sort (plain_of schema.now)) }
{
    let sets = sets_outside(alloc, schema, sort)?;
    push_cases(alloc, schema, sort, sets.as_slice(), cases)?;
    Ok(())
}

// The sets of columns outside the largest sets.
fn sets_outside(alloc: Global, schema: &Schema, sort: Sort) -> Result<Vec<ColSet>, FamilyErr>
    ensures sets { IfOk result (λ sets. sets.items ≡ transversals (edges sort (plain_of schema.now))) }
    ensures columns { IfOk result (λ sets. All IsColumnSet sets.items) }
    ensures plain { IsPlain (plain_of schema.now) }
    ensures few { OnOk result (IsFew sort (plain_of schema.now)) }
    ensures cause { IfErr result (IsSortCause sort (plain_of schema.now)) }
{
    shapes_are_plain();
    transversals_are_listed();
    let edges = bearing(alloc, schema.keys(), schema.not_null(), sort)?;
    match minimal(alloc, edges.as_slice(), MOST_CASES) {
        Ok(sets) => Ok(sets),
        Err(TransErr::TooMany { edge }) => Err(FamilyErr::TooMany { sort, edge }),
        Err(TransErr::Memory) => Err(FamilyErr::Memory),
    }
}

// The columns of each key that bears on the sort.
fn bearing(
    alloc: Global,
    keys: &[KeyDecl],
    not_null: ColSet,
    sort: Sort,
) -> Result<Vec<ColSet>, Memory>
    ensures { IfOk result (λ sets. sets.items ≡ map (λ key. key.columns) (filter (bears_on sort not_null) keys.now)) }
{
    let mut sets = Vec::new(alloc);
    for key in keys {
        push_if(&mut sets, key.columns, bears_on(sort, not_null, *key))?;
    }
    Ok(sets)
}

fn push_if(sets: &mut Vec<ColSet>, set: ColSet, wanted: bool) -> Result<(), Memory>
    ensures { OnOk result (sets.new.items ≡ sets.old.items ++ (if wanted then set ∷ [] else [])) }
{
    if wanted {
        sets.push(set)?;
    }
    Ok(())
}

// Whether the declared key alone implies the key of this sort over its columns.
fn bears_on(sort: Sort, not_null: ColSet, key: KeyDecl) -> bool
    ensures { result ≡ bears_on sort not_null key }
{
    match (sort, key.sort) {
        (Sort::Certain, Sort::Possible) => key.columns.is_inside(not_null),
        _ => true,
    }
}

// Adds the case outside each of the sets.
fn push_cases(
    alloc: Global,
    schema: &Schema,
    sort: Sort,
    sets: &[ColSet],
    cases: &mut Vec<Case>,
) -> Result<(), Memory>
    requires plain { IsPlain (plain_of schema.now) }
    requires columns { All IsColumnSet sets.now }
    ensures { OnOk result (cases.new.items ≡ cases.old.items ++ map (λ t. case_over (plain_of schema.now) sort (outside (plain_of schema.now) t)) sets.now) }
{
    for set in sets {
        cases.push(case(alloc, schema, sort, *set)?)?;
    }
    Ok(())
}

// The case of all columns outside the set.
fn case(alloc: Global, schema: &Schema, sort: Sort, set: ColSet) -> Result<Case, Memory>
    requires plain { IsPlain (plain_of schema.now) }
    requires columns { IsColumnSet set }
    ensures { IfOk result (λ case. case ≡ case_over (plain_of schema.now) sort (outside (plain_of schema.now) set)) }
{
    let columns = schema.all().minus(set);
    let rows = two_rows(alloc, schema, KeyDecl { sort, columns })?;
    Ok(Case {
        sort,
        columns,
        low: rows.low,
        high: rows.high,
    })
}
