ghost use Rattle.std.specs.Prelude.{◌≡◌, ◌≢◌, drop, IfOk, IfErr, MatchResult};
ghost use Rattle.std.specs.Vec.Iter.{into_iter_items};
ghost use Rattle.std.specs.IoError.{error_kind};
ghost use Rattle.keytab.specs.Faults.{IsWordsFault};

use pk_run::Status;
use std::alloc::{AllocError, Global};
use std::env::Args;
use std::io;
use std::io::ErrorKind;

/// The words after the program's name: the arguments behind the first, in order. Where one is no text they are
/// none of the plain forms.
pub fn words(alloc: Global, args: io::Result<Args>) -> Result<Vec<String>, Status>
    ensures words { IfOk args (λ all. MatchResult result (λ words. words.items ≡ drop 1 (into_iter_items all)) (λ status. status ≡ Status.OutOfMemory)) }
    ensures memory { IfErr args (λ error. error_kind error ≡ ErrorKind.OutOfMemory → result ≡ Err Status.OutOfMemory) }
    ensures no_text { IfErr args (λ error. error_kind error ≢ ErrorKind.OutOfMemory → result ≡ Err Status.Usage) }
    ensures fault { IfErr result IsWordsFault }
{
    match args {
        Ok(all) => match without_first(alloc, all) {
            Ok(words) => Ok(words),
            Err(_) => Err(Status::OutOfMemory),
        },
        Err(error) => Err(status_of(error.kind())),
    }
}

fn without_first(alloc: Global, mut all: Args) -> Result<Vec<String>, AllocError>
    ensures { IfOk result (λ words. words.items ≡ drop 1 (into_iter_items all)) }
{
    let mut words = Vec::new(alloc);
    let _first = all.next();
    while let Some(word) = all.next() {
        words.push(word)?;
    }
    Ok(words)
}

// The status where the arguments can't be had, by the kind of the error.
fn status_of(kind: ErrorKind) -> Status
    ensures memory { kind ≡ ErrorKind.OutOfMemory → result ≡ Status.OutOfMemory }
    ensures no_text { kind ≢ ErrorKind.OutOfMemory → result ≡ Status.Usage }
    ensures fault { IsWordsFault result }
{
    if kind == ErrorKind::OutOfMemory {
        Status::OutOfMemory
    } else {
        Status::Usage
    }
}
