//! What a base may hold.

ghost use Rattle.std.specs.Prelude.{◌≡◌, ◌<◌, ◌^◌, ◌-◌, length, min, None, Some, slice_get};

use crate::engine::Engine;
use pk_values::{BaseLimitName, Changes, LimitName, Refusal};

// How many tables a base may hold.
const MOST_TABLES: usize = 256;

// How many rows a base may hold.
const MOST_ROWS: u64 = 200_000;

// How high ids of rows and numbers of commits may go: 2^62.
const MOST_IDS: u64 = 4_611_686_018_427_387_904;

impl Engine {
    ghost use Rattle.std.specs.Prelude.{◌∷◌, []};
    ghost use Rattle.pk_values.specs.Refusals.{first_some};
    ghost use Rattle.pk_engine.specs.Base.{Table, row_count};
    ghost use Rattle.pk_engine.specs.Entries.{AreOf};
    ghost use Rattle.pk_engine.specs.State.{State, Changed, current, committed};
    ghost use Rattle.pk_engine.specs.Limits.{most_tables, most_ids, tables_full, commits_full, limit_refusals};
    ghost use Rattle.pk_engine.specs.Stands.{StandsFor};

    // The base holds as many tables as it may.
    #[tactic(auto, using(crate::proofs::LimitLemmas::tables_room, crate::proofs::LimitLemmas::tables_out))]
    pub(super) fn tables_full(&self) -> Option<Refusal>
        ensures stands { (st : State) → StandsFor self.now st → result ≡ tables_full st }
        ensures room { result ≡ None → length self.now.tables.items < most_tables }
    {
        if self.tables.len() < MOST_TABLES {
            return None;
        }
        Some(Refusal::Limit {
            what: LimitName::Tables,
        })
    }

    // The base has had as many commits as it may.
    #[tactic(auto, using(crate::proofs::LimitLemmas::commits_room, crate::proofs::LimitLemmas::commits_out))]
    pub(super) fn commits_full(&self) -> Option<Refusal>
        ensures stands { (st : State) → StandsFor self.now st → result ≡ commits_full st }
        ensures room { result ≡ None → self.now.commit < most_ids }
    {
        if self.commit < MOST_IDS {
            return None;
        }
        Some(Refusal::BaseLimit {
            what: BaseLimitName::Commits,
        })
    }

    // How many rows the base would have with these changes of the table at a place. More than 2^64 - 1 are
    // told as so many, which is above the limit too.
    pub(super) fn rows_with(&self, place: usize, changes: &Changes) -> u64
        requires within { place < length self.now.tables.items }
        requires of { (t : Table) → slice_get self.now.tables.items place ≡ Some t → AreOf t changes.now }
        ensures { (st : State) (t : Table) → StandsFor self.now st → slice_get self.now.tables.items place ≡ Some t → result ≡ min (row_count (committed (current st) (Changed ((t.name, changes.now) ∷ [])))) (2 ^ 64 - 1) }
    {
        let gone = changes.gone.as_slice().len() as u64;
        let added = self.tables[place].added(changes);
        self.rows.saturating_sub(gone).saturating_add(added)
    }

    // What changes of the table at a place are refused for by the limits of the base, which would have so
    // many rows.
    pub(super) fn limit_refusal(
        &self,
        place: usize,
        rows: u64,
        changes: &Changes,
    ) -> Option<Refusal>
        requires within { place < length self.now.tables.items }
        requires of { (t : Table) → slice_get self.now.tables.items place ≡ Some t → AreOf t changes.now }
        requires rows { (st : State) (t : Table) → StandsFor self.now st → slice_get self.now.tables.items place ≡ Some t → rows ≡ min (row_count (committed (current st) (Changed ((t.name, changes.now) ∷ [])))) (2 ^ 64 - 1) }
        ensures stands { (st : State) (t : Table) → StandsFor self.now st → slice_get self.now.tables.items place ≡ Some t → result ≡ first_some (limit_refusals st t changes.now) }
        ensures room { result ≡ None → self.now.commit < most_ids }
    {
        if rows > MOST_ROWS {
            return Some(Refusal::BaseLimit {
                what: BaseLimitName::Rows,
            });
        }
        let table = &self.tables[place];
        if table.next().saturating_add(table.added(changes)) > MOST_IDS {
            return Some(Refusal::BaseLimit {
                what: BaseLimitName::RowIds,
            });
        }
        self.commits_full()
    }
}
