//! CREATE TABLE.

ghost use Rattle.std.specs.Prelude.{◌≡◌, ◌≤◌, vec_len, IfOk, IsTrue};

use crate::engine::Engine;
use crate::table::Stored;
use pk_report::Reply;
use pk_schema::{MakeErr, Schema, declarations_make_shapes};
use pk_syntax::{Statement, TableDecl};
use pk_values::{Memory, Refusal};

impl Engine {
    ghost use Rattle.std.specs.Prelude.{[], ◌∷◌, ◌++◌, ◌<◌, length, Err};
    ghost use Rattle.pk_engine.specs.Place.{IsPlaceOf};
    ghost use Rattle.pk_syntax.specs.Given.{IsGiven};
    ghost use Rattle.pk_schema.specs.Shapes.{shape_of};
    ghost use Rattle.pk_schema.specs.Making.{schema_refusals};
    ghost use Rattle.pk_engine.specs.State.{State};
    ghost use Rattle.pk_engine.specs.Refusing.{decided};
    ghost use Rattle.pk_engine.specs.Limits.{most_tables, most_ids, tables_full, commits_full};
    ghost use Rattle.pk_engine.specs.Create.{create_refusals, created};
    ghost use Rattle.pk_engine.specs.Stands.{StandsFor, Replies, Moves};
    ghost use Rattle.pk_engine.specs.Valid.{is_table_name};

    // The answer to CREATE TABLE.
    pub(super) fn create(&mut self, declared: &TableDecl) -> Result<Reply, Memory>
        requires given { IsGiven (Statement.Create declared.now) }
        requires stands { (st : State) × StandsFor self.old st }
        ensures reply { IfOk result (λ r. Replies (λ st. decided st (create_refusals st declared.now) (created st declared.now)) self.old r) }
        ensures next { IfOk result (λ _. Moves (λ st. decided st (create_refusals st declared.now) (created st declared.now)) self.old self.new) }
    {
        match self.place_of(&declared.table) {
            Ok(_) => Ok(Reply::Refused(Refusal::TableExists {
                table: declared.table.copy()?,
            })),
            Err(place) => self.create_at(place, declared),
        }
    }

    // The answer where no table has the name, and this is the place for it.
    fn create_at(&mut self, place: usize, declared: &TableDecl) -> Result<Reply, Memory>
        requires given { IsGiven (Statement.Create declared.now) }
        requires within { place ≤ vec_len self.old.tables }
        requires free { IsPlaceOf declared.now.table self.old.tables.items (Err place) }
        ensures reply { IfOk result (λ r. Replies (λ st. decided st (schema_refusals declared.now ++ (tables_full st ∷ commits_full st ∷ [])) (created st declared.now)) self.old r) }
        ensures next { IfOk result (λ _. Moves (λ st. decided st (schema_refusals declared.now ++ (tables_full st ∷ commits_full st ∷ [])) (created st declared.now)) self.old self.new) }
    {
        declarations_make_shapes();
        match Schema::make(self.alloc, declared) {
            Ok(schema) => self.make_table(place, declared, schema),
            Err(MakeErr::Refused(refusal)) => Ok(Reply::Refused(refusal)),
            Err(MakeErr::Memory) => Err(Memory),
        }
    }

    // Makes the table, unless a limit of the base forbids it.
    fn make_table(
        &mut self,
        place: usize,
        declared: &TableDecl,
        schema: Schema,
    ) -> Result<Reply, Memory>
        requires within { place ≤ vec_len self.old.tables }
        requires free { IsPlaceOf declared.now.table self.old.tables.items (Err place) }
        requires named { IsTrue (is_table_name declared.now.table) }
        requires schema { schema ≡ shape_of declared.now }
        ensures reply { IfOk result (λ r. Replies (λ st. decided st (tables_full st ∷ commits_full st ∷ []) (created st declared.now)) self.old r) }
        ensures next { IfOk result (λ _. Moves (λ st. decided st (tables_full st ∷ commits_full st ∷ []) (created st declared.now)) self.old self.new) }
    {
        if let Some(refusal) = self.tables_full() {
            return Ok(Reply::Refused(refusal));
        }
        if let Some(refusal) = self.commits_full() {
            return Ok(Reply::Refused(refusal));
        }
        self.put_table(place, declared, schema)
    }

    // Puts the table at its place, where nothing refuses it.
    fn put_table(
        &mut self,
        place: usize,
        declared: &TableDecl,
        schema: Schema,
    ) -> Result<Reply, Memory>
        requires within { place ≤ vec_len self.old.tables }
        requires free { IsPlaceOf declared.now.table self.old.tables.items (Err place) }
        requires named { IsTrue (is_table_name declared.now.table) }
        requires schema { schema ≡ shape_of declared.now }
        requires tables { length self.old.tables.items < most_tables }
        requires commits { self.old.commit < most_ids }
        ensures reply { IfOk result (λ r. Replies (λ st. created st declared.now) self.old r) }
        ensures next { IfOk result (λ _. Moves (λ st. created st declared.now) self.old self.new) }
    {
        let _shape = schema.columns();
        let reply = Reply::Created {
            table: declared.table.copy()?,
        };
        let table = Stored::make(self.alloc, declared.table.copy()?, schema)?;
        self.tables.insert(place, table)?;
        self.commit += 1;
        Ok(reply)
    }
}
