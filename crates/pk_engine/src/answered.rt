ghost use Rattle.std.specs.Prelude.{◌≡◌};
ghost use Rattle.pk_engine.specs.Answer.{is_answered};

use pk_syntax::Statement;

/// Whether the engine answers the statement yet, as it does CREATE TABLE, DROP TABLE, INSERT, UPDATE, DELETE, SELECT,
/// SHOW CREATE TABLE, IMPLIES and COVER.
#[tactic(auto, unfolding(crate::specs::Answer::is_answered))]
pub fn is_answered(statement: &Statement) -> bool
    ensures { result ≡ is_answered statement.now }
{
    match statement {
        Statement::Create(_)
        | Statement::Drop { .. }
        | Statement::Insert(_)
        | Statement::Update(_)
        | Statement::Delete(_)
        | Statement::Select(_)
        | Statement::Show { .. }
        | Statement::Implies { .. }
        | Statement::Cover { .. } => true,
        Statement::Begin
        | Statement::Commit
        | Statement::Rollback
        | Statement::Session { .. }
        | Statement::Examples { .. }
        | Statement::Discover { .. }
        | Statement::Checkpoint => false,
    }
}
