ghost use Rattle.std.specs.Prelude.{◌≡◌, IsTrue, IfOk, vec_len};

use crate::table::Stored;
use pk_report::Reply;
use pk_syntax::Statement;
use pk_values::{Memory, Name, Refusal};
use std::alloc::Global;

mod create;
mod drop_table;
mod edit;
mod limits;
mod reason;
mod select;
mod show;

/// The base, and the answers to statements over it.
#[derive(Debug, Drop)]
pub struct Engine {
    alloc: Global,
    commit: u64,
    // In the byte order of their names.
    tables: Vec<Stored>,
    rows: u64,
}

impl Engine {
    ghost use Rattle.std.specs.List.Sorted.{IsSearchInRange};
    ghost use Rattle.std.specs.Option.{option_map};
    ghost use Rattle.pk_syntax.specs.Given.{IsGiven};
    ghost use Rattle.pk_engine.specs.Base.{empty_base, row_count, IsInNameOrder};
    ghost use Rattle.pk_engine.specs.Place.{IsPlaceOf};
    ghost use Rattle.pk_engine.specs.State.{State, started, current};
    ghost use Rattle.pk_engine.specs.Answer.{answer, is_answered};
    ghost use Rattle.pk_engine.specs.Refusing.{table_of};
    ghost use Rattle.pk_engine.specs.Stands.{StandsFor, Replies, Moves};

    /// The engine of the empty base.
    #[tactic(auto, using(crate::proofs::ValidLemmas::empty_base_valid), unfolding(crate::specs::Stands::StandsFor, crate::specs::State::current, crate::specs::State::after))]
    pub fn empty(alloc: Global) -> Engine
        ensures { StandsFor result (started empty_base) }
    {
        Engine {
            alloc,
            commit: 0,
            tables: Vec::new(alloc),
            rows: 0,
        }
    }

    /// Answers a statement that is one of those answered yet, and that has what parsing gives: declarations
    /// that are plain, names that are names, texts of UTF-8 and numbers of 64 bits. A refusal is a reply,
    /// and leaves the base as it was. After an `Err` nothing is claimed of the engine.
    #[tactic(auto, unfolding(crate::specs::Answer::answer, crate::specs::Answer::is_answered))]
    pub fn step(&mut self, statement: &Statement) -> Result<Reply, Memory>
        requires answered { IsTrue (is_answered statement.now) }
        requires given { IsGiven statement.now }
        requires stands { (st : State) × StandsFor self.old st }
        ensures reply { IfOk result (λ r. Replies (λ st. answer st statement.now) self.old r) }
        ensures next { IfOk result (λ _. Moves (λ st. answer st statement.now) self.old self.new) }
    {
        match statement {
            Statement::Create(declared) => self.create(declared),
            Statement::Drop { table } => self.drop_table(table),
            Statement::Insert(insert) => self.insert(insert),
            Statement::Update(update) => self.update(update),
            Statement::Delete(delete) => self.delete(delete),
            Statement::Select(select) => self.select(select),
            Statement::Show { table } => self.show(table),
            Statement::Implies { table, key } => self.implies(table, key),
            Statement::Cover { table } => self.cover(table),
            Statement::Begin
            | Statement::Commit
            | Statement::Rollback
            | Statement::Session { .. }
            | Statement::Examples { .. }
            | Statement::Discover { .. }
            | Statement::Checkpoint => unreachable!(),
        }
    }

    /// How many commits the base has had.
    #[tactic(auto, unfolding(crate::specs::Stands::StandsFor, crate::specs::State::current, crate::specs::State::after))]
    pub fn commit_number(&self) -> u64
        ensures { (st : State) → StandsFor self.now st → result ≡ (current st).commit }
    {
        self.commit
    }

    /// How many rows the tables of the base have together.
    #[tactic(auto, unfolding(crate::specs::Stands::StandsFor, crate::specs::State::current, crate::specs::State::after))]
    pub fn row_count(&self) -> u64
        ensures { (st : State) → StandsFor self.now st → result ≡ row_count (current st) }
    {
        self.rows
    }

    // The place of the table of this name, or else the one where a table of this name goes.
    fn place_of(&self, name: &Name) -> Result<usize, usize>
        ensures within { IsSearchInRange result (vec_len self.now.tables) }
        ensures place { IsInNameOrder self.now.tables.items → IsPlaceOf name.now self.now.tables.items result }
    {
        self.tables.binary_search_by(|table| table.cmp_name(name))
    }
}

// The reply where no table has the name.
fn no_table(name: &Name) -> Result<Reply, Memory>
    ensures { IfOk result (λ r. r ≡ Reply.Refused (Refusal.NoTable name.now)) }
{
    Ok(Reply::Refused(Refusal::NoTable {
        table: name.copy()?,
    }))
}
