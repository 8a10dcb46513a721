ghost use Rattle.std.specs.Prelude.{◌≡◌, ◌<◌, ◌^◌, not, ◌||◌, length, position, is_some, IfSome};
ghost use Rattle.pk_values.specs.ColumnSet.{is_subset};
ghost use Rattle.pk_syntax.specs.Declarations.{is_certain};
ghost use Rattle.pk_rule.specs.Plain.{plain_of};
ghost use Rattle.pk_rule.specs.Rule.{alone_implies, some_implies, is_implied};
ghost use Rattle.pk_imply.specs.Deriving.{implying_place, IsTrueOfTables};

use pk_schema::Schema;
use pk_values::{ColSet, KeyDecl, Sort};

/// The least place, from 0, of a declared key that alone implies this key, whose columns are the
/// schema's; `None` exactly where the key doesn't hold in every table of the schema.
///
/// A declared key implies another where its columns are among the other's, and, for a certain key, where
/// it is certain or all its columns are NOT NULL. Each declared key is looked at once at most.
pub fn implies(schema: &Schema, key: KeyDecl) -> Option<usize>
    requires { key.columns < 2 ^ length schema.now.columns }
    ensures place { result ≡ implying_place (plain_of schema.now) key }
    ensures within { IfSome result (λ place. place < length schema.now.keys) }
    ensures truth { IsTrueOfTables (plain_of schema.now) key result }
    ensures whether { is_some result ≡ is_implied (plain_of schema.now) key }
{
    first_implying(schema.keys(), schema.not_null(), &key)
}

/// The place of the first of the keys that alone implies the key.
pub(crate) fn first_implying(keys: &[KeyDecl], known: ColSet, key: &KeyDecl) -> Option<usize>
    ensures { result ≡ position (λ d. alone_implies known d key.now) keys.now }
{
    keys.iter()
        .position(|declared| alone_implies(known, declared, key))
}

/// Whether one of the keys alone implies the key.
pub(crate) fn some_implies(keys: &[KeyDecl], known: ColSet, key: &KeyDecl) -> bool
    ensures { result ≡ some_implies known keys.now key.now }
{
    keys.iter()
        .any(|declared| alone_implies(known, declared, key))
}

/// Whether the declared key by itself makes the other hold.
pub(crate) fn alone_implies(known: ColSet, declared: &KeyDecl, key: &KeyDecl) -> bool
    ensures { result ≡ alone_implies known declared.now key.now }
{
    declared.columns.is_inside(key.columns) && implies_sort(known, declared, key.sort)
}

// Whether the key implies the one of this sort over its own columns.
fn implies_sort(known: ColSet, key: &KeyDecl, sort: Sort) -> bool
    ensures { result ≡ (not (is_certain sort) || is_certain key.now.sort || is_subset key.now.columns known) }
{
    match (sort, key.sort) {
        (Sort::Possible, _) | (_, Sort::Certain) => true,
        (Sort::Certain, Sort::Possible) => key.columns.is_inside(known),
    }
}
