//! IMPLIES and COVER.

ghost use Rattle.std.specs.Prelude.{IfOk};

use crate::engine::{Engine, no_table};
use pk_report::Reply;
use pk_syntax::KeyText;
use pk_values::{Memory, Name};

impl Engine {
    ghost use Rattle.std.specs.Prelude.{Ok};
    ghost use Rattle.pk_engine.specs.Place.{IsPlaceOf};
    ghost use Rattle.pk_engine.specs.State.{State};
    ghost use Rattle.pk_engine.specs.Refusing.{about, decided};
    ghost use Rattle.pk_engine.specs.Reasoning.{implies_refusals, implied_told, cover_told};
    ghost use Rattle.pk_engine.specs.Stands.{StandsFor, Replies, Moves, RepliesAt};

    // The answer to IMPLIES.
    pub(super) fn implies(&self, table: &Name, key: &KeyText) -> Result<Reply, Memory>
        requires stands { (st : State) × StandsFor self.now st }
        ensures reply { IfOk result (λ r. Replies (λ st. about st table.now (λ t. decided st (implies_refusals t key.now) (implied_told st t key.now))) self.now r) }
        ensures next { Moves (λ st. about st table.now (λ t. decided st (implies_refusals t key.now) (implied_told st t key.now))) self.now self.now }
    {
        match self.place_of(table) {
            Ok(place) => self.implies_at(place, table, key),
            Err(_) => no_table(table),
        }
    }

    fn implies_at(&self, place: usize, table: &Name, key: &KeyText) -> Result<Reply, Memory>
        requires stands { (st : State) × StandsFor self.now st }
        requires found { IsPlaceOf table.now self.now.tables.items (Ok place) }
        ensures { IfOk result (λ r. RepliesAt place (λ st t. decided st (implies_refusals t key.now) (implied_told st t key.now)) self.now r) }
    {
        self.tables[place].implied(key)
    }

    // The answer to COVER.
    pub(super) fn cover(&self, table: &Name) -> Result<Reply, Memory>
        requires stands { (st : State) × StandsFor self.now st }
        ensures reply { IfOk result (λ r. Replies (λ st. about st table.now (λ t. cover_told st t)) self.now r) }
        ensures next { Moves (λ st. about st table.now (λ t. cover_told st t)) self.now self.now }
    {
        match self.place_of(table) {
            Ok(place) => self.cover_at(place, table),
            Err(_) => no_table(table),
        }
    }

    fn cover_at(&self, place: usize, table: &Name) -> Result<Reply, Memory>
        requires stands { (st : State) × StandsFor self.now st }
        requires found { IsPlaceOf table.now self.now.tables.items (Ok place) }
        ensures { IfOk result (λ r. RepliesAt place (λ st t. cover_told st t) self.now r) }
    {
        self.tables[place].cover()
    }
}
