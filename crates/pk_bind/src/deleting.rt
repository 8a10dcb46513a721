//! DELETE.

ghost use Rattle.std.specs.Prelude.{◌≡◌, IfOk, IsTrue};
ghost use Rattle.pk_values.specs.Refusals.{first_some};
ghost use Rattle.pk_syntax.specs.Given.{cond_has_utf8};
ghost use Rattle.pk_bind.specs.Bound.{IsBound, IfReady};
ghost use Rattle.pk_bind.specs.Conditions.{cond_asked};
ghost use Rattle.pk_bind.specs.Delete.{delete_refusals};
ghost use Rattle.pk_bind.specs.Fitting.{cond_fits};

use crate::bound::Bound;
use crate::conditions::cond_asked;
use crate::searching::cond_refusal;
use pk_logic::Cond;
use pk_schema::Schema;
use pk_syntax::Delete;
use pk_values::{Memory, Refusal};
use std::alloc::Global;

/// The condition of a DELETE, where it has one, or the first refusal that stands.
pub fn bind_delete(
    alloc: Global,
    schema: &Schema,
    delete: &Delete,
) -> Result<Bound<Option<Cond>>, Memory>
    requires { IsTrue (cond_has_utf8 delete.now.cond) }
    ensures bound { IfOk result (λ b. IsBound (delete_refusals schema.now delete.now) (cond_asked schema.now.columns delete.now.cond) b) }
    ensures fits { IfOk result (λ b. IfReady b (λ cond. IsTrue (cond_fits schema.now.columns cond))) }
{
    match delete_refusal(schema, delete)? {
        Some(refusal) => Ok(Bound::Refused(refusal)),
        None => ready(alloc, schema, delete),
    }
}

// The first refusal that stands.
#[tactic(auto, unfolding(crate::specs::Delete::delete_refusals))]
fn delete_refusal(schema: &Schema, delete: &Delete) -> Result<Option<Refusal>, Memory>
    ensures { IfOk result (λ r. r ≡ first_some (delete_refusals schema.now delete.now)) }
{
    cond_refusal(schema.columns(), &delete.table, &delete.cond)
}

// The condition, where nothing is refused.
fn ready(alloc: Global, schema: &Schema, delete: &Delete) -> Result<Bound<Option<Cond>>, Memory>
    requires texts { IsTrue (cond_has_utf8 delete.now.cond) }
    requires unrefused { first_some (delete_refusals schema.now delete.now) ≡ None }
    ensures bound { IfOk result (λ b. IsBound (delete_refusals schema.now delete.now) (cond_asked schema.now.columns delete.now.cond) b) }
    ensures fits { IfOk result (λ b. IfReady b (λ cond. IsTrue (cond_fits schema.now.columns cond))) }
{
    Ok(Bound::Ready(cond_asked(alloc, schema, &delete.cond)?))
}
