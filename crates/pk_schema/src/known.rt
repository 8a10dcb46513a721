//! Names in an order that finds each fast, however many there are.

ghost use Rattle.std.specs.Prelude.{◌≡◌, ℕ, List, map, IfOk};
ghost use Rattle.std.specs.Option.{option_copied};
ghost use Rattle.pk_values.specs.NameSets.{has_name as knows};
ghost use Rattle.pk_syntax.specs.Declarations.{has_name, names_of, twice};

use crate::named::Named;
use pk_syntax::ColumnDecl;
use pk_values::{Memory, Name};
use std::alloc::Global;
use std::collections::BTreeSet;

/// The first name that has stood before, among however many.
pub(crate) fn repeated<T: Named>(alloc: Global, items: &[T]) -> Result<Option<&Name>, Memory>
    ensures { IfOk result (λ r. option_copied r ≡ twice (map T.name items.now)) }
{
    let mut names = BTreeSet::new(alloc);
    for item in items {
        let name = item.name();
        if !names.insert(name.as_slice())? {
            return Ok(Some(name));
        }
    }
    Ok(None)
}

/// The names of the columns.
pub(crate) fn column_names(alloc: Global, columns: &[ColumnDecl]) -> Result<BTreeSet<&[u8]>, Memory>
    ensures { IfOk result (λ names. (name : List ℕ) → knows names name ≡ has_name (names_of columns.now) name) }
{
    let mut names = BTreeSet::new(alloc);
    for column in columns {
        names.insert(column.name.as_slice())?;
    }
    Ok(names)
}

/// Whether it is one of the names.
pub(crate) fn knows<'a>(names: &BTreeSet<&'a [u8]>, name: &'a Name) -> bool
    ensures { result ≡ knows names.now name.now }
{
    names.contains(&name.as_slice())
}
