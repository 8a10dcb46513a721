//! SHOW CREATE TABLE.

ghost use Rattle.std.specs.Prelude.{◌≡◌, IfOk};

use crate::engine::{Engine, no_table};
use pk_report::Reply;
use pk_values::{Memory, Name};

impl Engine {
    ghost use Rattle.std.specs.Prelude.{Ok};
    ghost use Rattle.pk_engine.specs.Place.{IsPlaceOf};
    ghost use Rattle.pk_engine.specs.State.{State};
    ghost use Rattle.pk_engine.specs.Refusing.{about};
    ghost use Rattle.pk_engine.specs.Show.{shown_table};
    ghost use Rattle.pk_engine.specs.Stands.{StandsFor, Replies, Moves, RepliesAt};

    // The answer to SHOW CREATE TABLE.
    pub(super) fn show(&self, name: &Name) -> Result<Reply, Memory>
        requires stands { (st : State) × StandsFor self.now st }
        ensures reply { IfOk result (λ r. Replies (λ st. about st name.now (λ t. shown_table st t)) self.now r) }
        ensures next { Moves (λ st. about st name.now (λ t. shown_table st t)) self.now self.now }
    {
        match self.place_of(name) {
            Ok(place) => self.show_at(place, name),
            Err(_) => no_table(name),
        }
    }

    fn show_at(&self, place: usize, name: &Name) -> Result<Reply, Memory>
        requires stands { (st : State) × StandsFor self.now st }
        requires found { IsPlaceOf name.now self.now.tables.items (Ok place) }
        ensures { IfOk result (λ r. RepliesAt place (λ st t. shown_table st t) self.now r) }
    {
        Ok(Reply::Shown {
            text: self.tables[place].text()?,
        })
    }
}
