ghost use Rattle.std.specs.Prelude.{◌≡◌, ◌<◌, map, Ok, Err, IfNone, MatchResult};
ghost use Rattle.std.specs.String.{string_bytes};
ghost use Rattle.std.specs.Process.{exit_status};
ghost use Rattle.std.specs.Io.KnownBytes.{Keeps};
ghost use Rattle.pk_run.specs.Status.{code_of};
ghost use Rattle.pk_run.specs.declared.status.Status.{Status};
ghost use Rattle.keytab.specs.Faults.{fault_of};
ghost use Rattle.keytab.specs.Program.{IsRun};

use crate::fault::fault_of;
use pk_run::{Status, run_keytab};
use pk_world::{Source, Station};
use std::alloc::Global;
use std::io::Write;
use std::process::ExitCode;

/// Does what the words ask for over these streams, says on `errors` in one line what stopped it, where
/// something did, and gives the exit status. Where the words couldn't be had, nothing is done, and their
/// error is the status.
pub fn run_program<S: Source, W: Station, E: Write>(
    alloc: Global,
    words: Result<Vec<String>, Status>,
    script: &mut S,
    station: &mut W,
    errors: &mut E,
) -> ExitCode
    ensures run { MatchResult words
        (λ all. (status : Status) × (exit_status result ≡ code_of status) × IsRun S.Source W.Station (map string_bytes all.items) script.old script.new station.old station.new status)
        (λ status. (exit_status result ≡ code_of status) × (script.new ≡ script.old) × (station.new ≡ station.old)) }
    ensures quiet { exit_status result < 2 → Keeps (E.contents errors.old) (E.contents errors.new) }
{
    let status = match words {
        Ok(words) => run_keytab(alloc, words.as_slice(), script, station),
        Err(status) => status,
    };
    ended(status, errors)
}

/// Says in one line what the status stands for, where that is a fault, and gives the exit status.
pub fn ended<E: Write>(status: Status, errors: &mut E) -> ExitCode
    ensures code { exit_status result ≡ code_of status }
    ensures quiet { IfNone (fault_of status) (Keeps (E.contents errors.old) (E.contents errors.new)) }
{
    if let Some(fault) = fault_of(status) {
        // Where standard error is closed too, the status is left to tell the fault.
        let _ = writeln!(errors, "{fault}");
    }
    ExitCode::from(status.code())
}
