ghost use Rattle.std.specs.Prelude.{◌≡◌, ◌<◌, ◌^◌, ◌+◌, ◌∷◌, ◌++◌, length, IsTrue, IfOk};
ghost use Rattle.std.specs.Option.{option_to_list};
ghost use Rattle.pk_values.specs.declared.rule.Rule.TheVariants.{Declared};
ghost use Rattle.pk_rule.specs.Plain.{plain_of};
ghost use Rattle.pk_rule.specs.Rule.{is_implied};
ghost use Rattle.pk_imply.specs.Deriving.{rules_of, rules_between, sort_rules};

use crate::implying::first_implying;
use pk_schema::Schema;
use pk_values::{Items, KeyDecl, Memory, Rule, Sort};
use std::alloc::Global;

/// The rules by which this key, which is implied and over the schema's columns, follows from the first
/// declared key that alone implies it: that key's place, counted from 1, then a change of sort where the
/// sorts differ, then an extension where the columns differ. `Memory` may come at any key.
pub fn derive(alloc: Global, schema: &Schema, key: KeyDecl) -> Result<Items<Rule>, Memory>
    requires columns { key.columns < 2 ^ length schema.now.columns }
    requires implied { IsTrue (is_implied (plain_of schema.now) key) }
    ensures { IfOk result (λ rules. rules ≡ rules_of (plain_of schema.now) key) }
{
    let keys = schema.keys();
    let place = first_implying(keys, schema.not_null(), &key).unwrap();
    rules_from(alloc, place as u32 + 1, &keys[place], &key)
}

// The declaration of the key at this place, and the rules from it to another.
fn rules_from(
    alloc: Global,
    place: u32,
    declared: &KeyDecl,
    key: &KeyDecl,
) -> Result<Items<Rule>, Memory>
    ensures { IfOk result (λ rules. rules ≡ Declared place ∷ rules_between declared.now key.now) }
{
    let mut rules = Vec::with_capacity(alloc, 3)?;
    rules.push(Rule::Declared { key: place })?;
    if let Some(rule) = sort_rule(declared.sort, key.sort) {
        rules.push(rule)?;
    }
    if declared.columns != key.columns {
        rules.push(Rule::Extend { to: key.columns })?;
    }
    Ok(Items::from_vec(rules))
}

// The rule from one sort to another, where they differ.
fn sort_rule(from: Sort, to: Sort) -> Option<Rule>
    ensures { option_to_list result ≡ sort_rules from to }
{
    match (from, to) {
        (Sort::Possible, Sort::Certain) => Some(Rule::Strengthen),
        (Sort::Certain, Sort::Possible) => Some(Rule::Weaken),
        (Sort::Certain, Sort::Certain) | (Sort::Possible, Sort::Possible) => None,
    }
}
