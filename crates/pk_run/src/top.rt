ghost use Rattle.std.specs.Prelude.{◌≡◌, ◌↔◌, ◌+◌, ◌<◌, ◌≤◌, true, false, length, map, IsTrue, IfOk, IsErrOf};
ghost use Rattle.std.specs.String.{string_bytes};
ghost use Rattle.pk_world.specs.Rose.{Rose};
ghost use Rattle.pk_engine.specs.Base.{empty_base};
ghost use Rattle.pk_engine.specs.KeyLaws.{KeysAreJudgedByCompletions};
ghost use Rattle.pk_engine.specs.ReasonLaws.{ImpliesTellsTheTruth, CoverIsTold};
ghost use Rattle.pk_run.specs.Status.{IsUnrun};
ghost use Rattle.pk_run.specs.Words.{is_plain_form};
ghost use Rattle.pk_run.specs.Laws.{RunsPassValidStates};
ghost use Rattle.pk_run.specs.Told.{told, is_refused};
ghost use Rattle.pk_run.specs.Run.{WhereTells, Takes, TakesFront, OnWholeRun, IsReadAs, IsLeftBy, AreCountedBy, IsUnstopped};
ghost use Rattle.pk_run.specs.declared.scripts.TheConstants.{MOST_SCRIPT};

use crate::laws::runs_pass_valid_states;
use crate::running::{RunErr, run_pieces};
use crate::scripts::{ReadErr, script_of};
use crate::status::Status;
use pk_engine::{
    Engine, implies_tells_the_truth, keys_are_judged_by_completions, the_cover_is_told,
};
use pk_lex::lex;
use pk_world::{Source, Station};
use std::alloc::Global;

/// Does what the words after the program's name ask for. `memory` reads the whole script of the source,
/// answers its pieces one by one from the empty base, and tells each reply to the station before the
/// next piece is answered. No other words ask for anything.
pub fn run_keytab<S: Source, W: Station>(
    alloc: Global,
    words: &[String],
    script: &mut S,
    station: &mut W,
) -> Status
    // What is told is a front of the machine's replies, and all of them where the script was run to its end.
    ensures front { WhereTells S.Source script.old (λ bytes. TakesFront W.Station station.old station.new (told empty_base bytes)) }
    ensures whole { OnWholeRun result (WhereTells S.Source script.old (λ bytes. Takes W.Station station.old station.new (told empty_base bytes))) }

    // Each state that the run of a script passes through is a valid one, so that the next three speak of it.
    ensures passed { RunsPassValidStates }

    // Where nothing else refuses a statement that changes rows, it is refused for a key exactly where some key of its
    // table, as that would be, fails over all completions, with two rows shown; else it is done.
    ensures keys { KeysAreJudgedByCompletions }

    // The reply to IMPLIES tells rules exactly where the key holds in every table of the schema, and else two rows that are
    // such a table in which it fails; COVER tells the cover of the table's keys.
    ensures implied { ImpliesTellsTheTruth }
    ensures cover { CoverIsTold }

    // What each status says of the script, of source and station, and of their counts of faults.
    ensures read { WhereTells S.Source script.old (λ bytes. IsReadAs result bytes (S.rest script.new)) }
    ensures leaves { IsLeftBy result script.old script.new station.old station.new }
    ensures faults { AreCountedBy result (S.faults script.old) (S.faults script.new) (W.sink_faults station.old) (W.sink_faults station.new) }

    // The words are none of the plain forms.
    ensures usage { (result ≡ Status.Usage) ↔ (is_plain_form (map string_bytes words.now) ≡ false) }

    // Where the words ask for a run and no count rises, the run is whole, or memory ran out, or the script is too long.
    ensures complete { is_plain_form (map string_bytes words.now) ≡ true → ¬ Rose (S.faults script.old) (S.faults script.new) → ¬ Rose (W.sink_faults station.old) (W.sink_faults station.new) → IsUnstopped result (WhereTells S.Source script.old (λ bytes. Takes W.Station station.old station.new (told empty_base bytes))) (WhereTells S.Source script.old (λ bytes. MOST_SCRIPT < length bytes)) }

    // A script that is too long is never run, and at most one byte more than a script may have is taken.
    ensures never_long { WhereTells S.Source script.old (λ bytes. MOST_SCRIPT < length bytes → IsUnrun result × (station.new ≡ station.old)) }
    ensures taken { WhereTells S.Source script.old (λ bytes. length bytes ≤ length (S.rest script.new) + (MOST_SCRIPT + 1)) }

    // No count falls, and what tells its bytes goes on to tell them.
    ensures script_count { S.faults script.old ≤ S.faults script.new }
    ensures reply_count { W.sink_faults station.old ≤ W.sink_faults station.new }
    ensures script_tells { IsTrue (S.tells script.old) → IsTrue (S.tells script.new) }
    ensures station_tells { IsTrue (W.tells station.old) → IsTrue (W.tells station.new) }
{
    machine_laws();
    if !is_memory(words) {
        return Status::Usage;
    }
    match script_of(alloc, script) {
        Ok(bytes) => match run_script(alloc, bytes.as_slice(), station) {
            Ok(false) => Status::Done,
            Ok(true) => Status::Refused,
            Err(RunErr::Fault) => Status::ReplyFault,
            Err(RunErr::OutOfMemory) => Status::OutOfMemory,
        },
        Err(ReadErr::Fault) => Status::ScriptFault,
        Err(ReadErr::Long) => Status::LongScript,
        Err(ReadErr::OutOfMemory) => Status::OutOfMemory,
    }
}

// What holds of the machine whatever statements come.
fn machine_laws()
    ensures passed { RunsPassValidStates }
    ensures keys { KeysAreJudgedByCompletions }
    ensures implied { ImpliesTellsTheTruth }
    ensures cover { CoverIsTold }
{
    runs_pass_valid_states();
    keys_are_judged_by_completions();
    implies_tells_the_truth();
    the_cover_is_told();
}

// Runs a whole script from the empty base. At `Ok` it says whether some reply is a refusal.
#[tactic(auto, unfolding(crate::specs::Told::told, crate::specs::Told::is_refused))]
fn run_script<W: Station>(alloc: Global, script: &[u8], station: &mut W) -> Result<bool, RunErr>
    ensures front { TakesFront W.Station station.old station.new (told empty_base script.now) }
    ensures whole { IfOk result (λ _. Takes W.Station station.old station.new (told empty_base script.now)) }
    ensures refused { IfOk result (λ refused. refused ≡ is_refused empty_base script.now) }
    ensures cause { IsErrOf result RunErr.Fault → Rose (W.sink_faults station.old) (W.sink_faults station.new) }
    ensures unfailed { ¬ IsErrOf result RunErr.Fault → W.sink_faults station.new ≡ W.sink_faults station.old }
    ensures count { W.sink_faults station.old ≤ W.sink_faults station.new }
    ensures tells { IsTrue (W.tells station.old) → IsTrue (W.tells station.new) }
{
    let pieces = lex(alloc, script)?;
    let mut engine = Engine::empty(alloc);
    run_pieces(alloc, &mut engine, pieces.as_slice(), station)
}

fn is_memory(words: &[String]) -> bool
    ensures { result ≡ is_plain_form (map string_bytes words.now) }
{
    match words {
        [word] => word.as_str() == "memory",
        _ => false,
    }
}
