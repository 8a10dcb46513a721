//! What the keys of a table imply, which its schema alone tells.

ghost use Rattle.std.specs.Prelude.{◌≡◌, ◌+◌, ◌<◌, ◌^◌, length, IfOk};
ghost use Rattle.pk_syntax.specs.Declarations.{names_of};
ghost use Rattle.pk_rule.specs.Plain.{plain_of};
ghost use Rattle.pk_rule.specs.TwoRows.{low_row, high_row};
ghost use Rattle.pk_engine.specs.Reasoning.{implied_reply, IsToldAs};

use crate::table::Stored;
use pk_examples::{TwoRows, two_rows};
use pk_imply::{AskErr, asked_key, cover, derive, implies};
use pk_report::Reply;
use pk_schema::{Column, Schema};
use pk_syntax::KeyText;
use pk_values::{Items, KeyDecl, Memory, Name};
use std::alloc::Global;

impl Stored {
    ghost use Rattle.pk_imply.specs.Cover.{cover_of};
    ghost use Rattle.pk_engine.specs.State.{State};
    ghost use Rattle.pk_engine.specs.Refusing.{decided};
    ghost use Rattle.pk_engine.specs.Reasoning.{implies_refusals, implied_told};

    /// The reply to the question whether the keys imply the key that is named, or the first refusal.
    pub fn implied(&self, key: &KeyText) -> Result<Reply, Memory>
        ensures { IfOk result (λ r. (st : State) → r ≡ (decided st (implies_refusals self.now key.now) (implied_told st self.now key.now)).reply) }
    {
        match asked_key(&self.schema, &self.name, key) {
            Ok(key) => implied_reply(*self.rows.allocator(), &self.schema, &key),
            Err(error) => unasked(error),
        }
    }

    /// The least keys that say the same as those of the table.
    pub fn cover(&self) -> Result<Reply, Memory>
        ensures { IfOk result (λ r. r ≡ Reply.Cover (names_of self.now.shape.columns) (cover_of (plain_of self.now.shape))) }
    {
        let alloc = *self.rows.allocator();
        Ok(Reply::Cover {
            columns: names_of(alloc, self.schema.columns())?,
            keys: cover(alloc, &self.schema)?,
        })
    }
}

// The reply to a question that asks about no key.
fn unasked(error: AskErr) -> Result<Reply, Memory>
    ensures { IfOk result (IsToldAs error) }
{
    match error {
        AskErr::Refused(refusal) => Ok(Reply::Refused(refusal)),
        AskErr::Memory => Err(Memory),
    }
}

// The first declared key that implies this one with the rules from it, or the two rows that refute it.
fn implied_reply(alloc: Global, schema: &Schema, key: &KeyDecl) -> Result<Reply, Memory>
    requires { key.now.columns < 2 ^ length schema.now.columns }
    ensures { IfOk result (λ r. r ≡ implied_reply (plain_of schema.now) key.now) }
{
    match implies(schema, *key) {
        Some(place) => Ok(Reply::Implied {
            key: number_of(schema, place),
            rules: derive(alloc, schema, *key)?,
        }),
        None => refuting(alloc, schema, *key),
    }
}

// The number, from 1, of the key at this place.
fn number_of(schema: &Schema, place: usize) -> u32
    requires { place < length schema.now.keys }
    ensures { result ≡ place + 1 }
{
    let _few = schema.keys();
    place as u32 + 1
}

// The two rows of the key.
fn refuting(alloc: Global, schema: &Schema, key: KeyDecl) -> Result<Reply, Memory>
    ensures { IfOk result (λ r. r ≡ Reply.NotImplied (low_row (plain_of schema.now) key) (high_row (plain_of schema.now) key)) }
{
    let TwoRows { low, high } = two_rows(alloc, schema, key)?;
    Ok(Reply::NotImplied { low, high })
}

// The names of the columns.
fn names_of(alloc: Global, columns: &[Column]) -> Result<Items<Name>, Memory>
    ensures { IfOk result (λ names. names ≡ names_of columns.now) }
{
    let mut names = Vec::with_capacity(alloc, columns.len())?;
    for column in columns {
        names.push(column.name.copy()?)?;
    }
    Ok(Items::from_vec(names))
}
