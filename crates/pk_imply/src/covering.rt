ghost use Rattle.std.specs.Prelude.{◌≡◌, ◌++◌, not, filter, map, IfOk, OnOk};
ghost use Rattle.pk_values.specs.declared.key.Sort.TheVariants as sorts;
ghost use Rattle.pk_rule.specs.Plain.{plain_of};
ghost use Rattle.pk_rule.specs.Laws.{key_over};
ghost use Rattle.pk_rule.specs.Rule.{some_implies};
ghost use Rattle.pk_imply.specs.Cover.{IsCover, cover_of};

use crate::implying::some_implies;
use crate::least_sets::least_sets;
use pk_schema::Schema;
use pk_values::{ColSet, Items, KeyDecl, Memory, Sort};
use std::alloc::Global;

/// The cover of the schema's keys: the certain keys over the minimal sets of columns for which a certain
/// key is implied, then the possible keys over the minimal sets for which a possible key, and no certain
/// one, is implied; each in the order of sets. It is the list `cover_of`. `Memory` may come at any schema.
///
/// For 32 keys, the most that a schema has, these are at most 4,224 tests of inclusion and two sorts of 32
/// sets, however many columns there are.
pub fn cover(alloc: Global, schema: &Schema) -> Result<Items<KeyDecl>, Memory>
    ensures cover { IfOk result (IsCover (plain_of schema.now)) }
    ensures computed { IfOk result (λ keys. keys ≡ cover_of (plain_of schema.now)) }
{
    let keys = schema.keys();
    let known = schema.not_null();
    let certain = least_sets(alloc, keys, known, Sort::Certain)?;
    let possible = least_sets(alloc, keys, known, Sort::Possible)?;
    let only_possible = without_certain(alloc, keys, known, possible.as_slice())?;
    joined(alloc, certain.as_slice(), only_possible.as_slice())
}

// Those of the sets over which no certain key follows.
fn without_certain(
    alloc: Global,
    keys: &[KeyDecl],
    known: ColSet,
    sets: &[ColSet],
) -> Result<Vec<ColSet>, Memory>
    ensures { IfOk result (λ kept. kept.items ≡ filter (λ x. not (some_implies known keys.now (key_over sorts.Certain x))) sets.now) }
{
    let mut kept = Vec::with_capacity(alloc, sets.len())?;
    for set in sets {
        let sort = Sort::Certain;
        let columns = *set;
        if !some_implies(keys, known, &KeyDecl { sort, columns }) {
            kept.push(columns)?;
        }
    }
    Ok(kept)
}

// The certain keys over the first sets, then the possible keys over the others.
fn joined(alloc: Global, certain: &[ColSet], possible: &[ColSet]) -> Result<Items<KeyDecl>, Memory>
    ensures { IfOk result (λ keys. keys ≡ map (key_over sorts.Certain) certain.now ++ map (key_over sorts.Possible) possible.now) }
{
    let mut keys = Vec::with_capacity(alloc, certain.len() + possible.len())?;
    add_keys(&mut keys, Sort::Certain, certain)?;
    add_keys(&mut keys, Sort::Possible, possible)?;
    Ok(Items::from_vec(keys))
}

// Puts the keys of this sort over the sets behind the others.
fn add_keys(keys: &mut Vec<KeyDecl>, sort: Sort, sets: &[ColSet]) -> Result<(), Memory>
    ensures { OnOk result (keys.new.items ≡ keys.old.items ++ map (key_over sort) sets.now) }
{
    for set in sets {
        let columns = *set;
        keys.push(KeyDecl { sort, columns })?;
    }
    Ok(())
}
