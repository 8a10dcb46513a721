ghost use Rattle.std.specs.Prelude.{◌≡◌, ◌≤◌, All, IsTrue, IfOk, IsErrOf};
ghost use Rattle.pk_world.specs.Rose.{Rose};
ghost use Rattle.pk_lex.specs.Tokens.{is_lexed};
ghost use Rattle.pk_engine.specs.State.{State};
ghost use Rattle.pk_engine.specs.Stands.{StandsFor};
ghost use Rattle.pk_report.specs.Text.{text};
ghost use Rattle.pk_run.specs.Told.{step, run, state_after, told_by, is_refusal, has_refusal};
ghost use Rattle.pk_run.specs.Run.{Takes, TakesFront};

use pk_engine::{Engine, is_answered};
use pk_lex::Piece;
use pk_parse::{ParseErr, parse};
use pk_report::{Reply, reply_text};
use pk_values::{Memory, Refusal};
use pk_world::{Failed, Station};
use std::alloc::Global;

/// Why a run stopped before its end.
#[derive(Clone, Copy, Debug, PartialEq, Eq)]
pub enum RunErr {
    /// The sink failed.
    Fault,
    /// Memory ran out.
    OutOfMemory,
}

impl From<Memory> for RunErr {
    ghost use Rattle.pk_run.specs.declared.running.RunErr.TheVariants.{OutOfMemory};

    ghost from_gives = { λ _ e. e ≡ OutOfMemory };

    fn from(_error: Memory) -> RunErr {
        RunErr::OutOfMemory
    }
}

impl From<Failed> for RunErr {
    ghost use Rattle.pk_run.specs.declared.running.RunErr.TheVariants.{Fault};

    ghost from_gives = { λ _ e. e ≡ Fault };

    fn from(_error: Failed) -> RunErr {
        RunErr::Fault
    }
}

/// Answers the pieces one by one, and tells each reply before the next piece is answered. At `Ok` it
/// says whether some reply is a refusal, and the engine stands for the state after all pieces.
pub fn run_pieces<W: Station>(
    alloc: Global,
    engine: &mut Engine,
    pieces: &[Piece],
    station: &mut W,
) -> Result<bool, RunErr>
    requires stands { (st : State) × StandsFor engine.old st }
    requires lexed { All (λ piece. IsTrue (is_lexed piece)) pieces.now }
    ensures whole { IfOk result (λ _. (st : State) → StandsFor engine.old st → Takes W.Station station.old station.new (told_by (run st pieces.now))) }
    ensures refused { IfOk result (λ refused. (st : State) → StandsFor engine.old st → refused ≡ has_refusal (run st pieces.now)) }
    ensures after { IfOk result (λ _. (st : State) → StandsFor engine.old st → StandsFor engine.new (state_after st pieces.now)) }
    ensures front { (st : State) → StandsFor engine.old st → TakesFront W.Station station.old station.new (told_by (run st pieces.now)) }
    ensures cause { IsErrOf result RunErr.Fault → Rose (W.sink_faults station.old) (W.sink_faults station.new) }
    ensures unfailed { ¬ IsErrOf result RunErr.Fault → W.sink_faults station.new ≡ W.sink_faults station.old }
    ensures count { W.sink_faults station.old ≤ W.sink_faults station.new }
    ensures tells { IsTrue (W.tells station.old) → IsTrue (W.tells station.new) }
{
    let mut refused = false;
    for piece in pieces {
        let is_refused = answer_and_tell(alloc, engine, piece, station)?;
        refused = refused || is_refused;
    }
    Ok(refused)
}

// Answers a piece and tells the reply. At `Ok` it says whether the reply is a refusal.
fn answer_and_tell<W: Station>(
    alloc: Global,
    engine: &mut Engine,
    piece: &Piece,
    station: &mut W,
) -> Result<bool, RunErr>
    requires stands { (st : State) × StandsFor engine.old st }
    requires lexed { IsTrue (is_lexed piece.now) }
    ensures told { IfOk result (λ _. (st : State) → StandsFor engine.old st → Takes W.Station station.old station.new (text (step st piece.now).reply)) }
    ensures refused { IfOk result (λ refused. (st : State) → StandsFor engine.old st → refused ≡ is_refusal (step st piece.now).reply) }
    ensures next { IfOk result (λ _. (st : State) → StandsFor engine.old st → StandsFor engine.new (step st piece.now).next) }
    ensures front { (st : State) → StandsFor engine.old st → TakesFront W.Station station.old station.new (text (step st piece.now).reply) }
    ensures cause { IsErrOf result RunErr.Fault → Rose (W.sink_faults station.old) (W.sink_faults station.new) }
    ensures unfailed { ¬ IsErrOf result RunErr.Fault → W.sink_faults station.new ≡ W.sink_faults station.old }
    ensures count { W.sink_faults station.old ≤ W.sink_faults station.new }
    ensures tells { IsTrue (W.tells station.old) → IsTrue (W.tells station.new) }
{
    let reply = answer_piece(alloc, engine, piece)?;
    let text = reply_text(alloc, &reply)?;
    station.tell(&text)?;
    Ok(is_refusal(&reply))
}

// The reply to a piece. After an `Err` nothing is claimed of the engine.
#[tactic(auto, unfolding(crate::specs::Told::step))]
fn answer_piece(alloc: Global, engine: &mut Engine, piece: &Piece) -> Result<Reply, Memory>
    requires stands { (st : State) × StandsFor engine.old st }
    requires lexed { IsTrue (is_lexed piece.now) }
    ensures reply { IfOk result (λ r. (st : State) → StandsFor engine.old st → r ≡ (step st piece.now).reply) }
    ensures next { IfOk result (λ _. (st : State) → StandsFor engine.old st → StandsFor engine.new (step st piece.now).next) }
{
    match parse(alloc, piece) {
        Ok(statement) => {
            if is_answered(&statement) {
                engine.step(&statement)
            } else {
                Ok(not_statement(piece.line))
            }
        }
        Err(ParseErr::BadCharacter { line }) => Ok(Reply::Refused(Refusal::BadCharacter { line })),
        Err(ParseErr::UnclosedText { line }) => Ok(Reply::Refused(Refusal::UnclosedText { line })),
        Err(ParseErr::NotStatement { line }) => Ok(not_statement(line)),
        Err(ParseErr::Memory) => Err(Memory),
    }
}

fn not_statement(line: u64) -> Reply
    ensures { result ≡ Reply.Refused (Refusal.NotStatement line) }
{
    Reply::Refused(Refusal::NotStatement { line })
}

fn is_refusal(reply: &Reply) -> bool
    ensures { result ≡ is_refusal reply.now }
{
    matches!(reply, Reply::Refused(_))
}
