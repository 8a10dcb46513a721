//! DROP TABLE.

ghost use Rattle.std.specs.Prelude.{◌≡◌, ◌<◌, ◌≤◌, length, IfOk};

use crate::engine::{Engine, no_table};
use pk_exec::MOST_CHANGES;
use pk_report::Reply;
use pk_values::{Memory, Name, Refusal};

impl Engine {
    ghost use Rattle.std.specs.Prelude.{Ok};
    ghost use Rattle.pk_engine.specs.Place.{IsPlaceOf};
    ghost use Rattle.pk_engine.specs.State.{State};
    ghost use Rattle.pk_engine.specs.Refusing.{about, decided};
    ghost use Rattle.pk_engine.specs.Limits.{most_ids};
    ghost use Rattle.pk_engine.specs.Drop.{drop_refusals, dropped};
    ghost use Rattle.pk_engine.specs.Stands.{StandsFor, Replies, Moves, RepliesAt, MovesAt};

    // The answer to DROP TABLE.
    pub(super) fn drop_table(&mut self, name: &Name) -> Result<Reply, Memory>
        requires stands { (st : State) × StandsFor self.old st }
        ensures reply { IfOk result (λ r. Replies (λ st. about st name.now (λ t. decided st (drop_refusals st t) (dropped st t))) self.old r) }
        ensures next { IfOk result (λ _. Moves (λ st. about st name.now (λ t. decided st (drop_refusals st t) (dropped st t))) self.old self.new) }
    {
        match self.place_of(name) {
            Ok(place) => self.drop_at(place, name),
            Err(_) => no_table(name),
        }
    }

    // The answer where the table stands at this place.
    fn drop_at(&mut self, place: usize, name: &Name) -> Result<Reply, Memory>
        requires stands { (st : State) × StandsFor self.old st }
        requires found { IsPlaceOf name.now self.old.tables.items (Ok place) }
        ensures reply { IfOk result (λ r. RepliesAt place (λ st t. decided st (drop_refusals st t) (dropped st t)) self.old r) }
        ensures next { IfOk result (λ _. MovesAt place (λ st t. decided st (drop_refusals st t) (dropped st t)) self.old self.new) }
    {
        if self.tables[place].row_count() > MOST_CHANGES {
            return Ok(Reply::Refused(Refusal::ManyChanges));
        }
        if let Some(refusal) = self.commits_full() {
            return Ok(Reply::Refused(refusal));
        }
        self.take_table(place, name)
    }

    // Takes the table away, where nothing refuses it.
    fn take_table(&mut self, place: usize, name: &Name) -> Result<Reply, Memory>
        requires stands { (st : State) × StandsFor self.old st }
        requires found { IsPlaceOf name.now self.old.tables.items (Ok place) }
        requires commits { self.old.commit < most_ids }
        ensures reply { IfOk result (λ r. RepliesAt place (λ st t. dropped st t) self.old r) }
        ensures next { IfOk result (λ _. MovesAt place (λ st t. dropped st t) self.old self.new) }
    {
        let reply = Reply::Dropped {
            table: name.copy()?,
        };
        let table = self.tables.remove(place);
        self.rows -= table.row_count();
        self.commit += 1;
        Ok(reply)
    }
}
