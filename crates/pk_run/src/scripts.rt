ghost use Rattle.std.specs.Prelude.{◌≡◌, ◌+◌, ◌<◌, ◌≤◌, [], length, IsTrue, IfOk, IsErrOf};
ghost use Rattle.pk_world.specs.Rose.{Rose};
ghost use Rattle.pk_run.specs.Run.{WhereTells};
ghost use Rattle.pk_run.specs.declared.scripts.TheConstants.{MOST_SCRIPT};

use pk_values::Memory;
use pk_world::{Pull, Source};
use std::alloc::{AllocError, Global};

/// The longest script, in bytes.
pub const MOST_SCRIPT: usize = 4_194_304;

// How many bytes are asked for at once.
const ROOM: usize = 4096;

/// Why a script couldn't be read.
#[derive(Clone, Copy, Debug, PartialEq, Eq)]
pub enum ReadErr {
    /// The source failed.
    Fault,
    /// The source has more bytes than a script may have.
    Long,
    /// Memory ran out.
    OutOfMemory,
}

impl From<AllocError> for ReadErr {
    ghost use Rattle.pk_run.specs.declared.scripts.ReadErr.TheVariants.{OutOfMemory};

    ghost from_gives = { λ _ e. e ≡ OutOfMemory };

    fn from(_error: AllocError) -> ReadErr {
        ReadErr::OutOfMemory
    }
}

/// All bytes that a source has left, at most `MOST_SCRIPT`. At most one byte more is taken.
pub fn script_of<S: Source>(alloc: Global, source: &mut S) -> Result<Vec<u8>, ReadErr>
    ensures read { IfOk result (λ v. WhereTells S.Source source.old (λ bytes. (bytes ≡ v.items) × (S.rest source.new ≡ []))) }
    ensures fits { IfOk result (λ v. length v.items ≤ MOST_SCRIPT) }
    ensures long { IsErrOf result ReadErr.Long → WhereTells S.Source source.old (λ bytes. MOST_SCRIPT < length bytes) }
    ensures taken { WhereTells S.Source source.old (λ bytes. length bytes ≤ length (S.rest source.new) + (MOST_SCRIPT + 1)) }
    ensures cause { IsErrOf result ReadErr.Fault → Rose (S.faults source.old) (S.faults source.new) }
    ensures unfailed { ¬ IsErrOf result ReadErr.Fault → S.faults source.new ≡ S.faults source.old }
    ensures count { S.faults source.old ≤ S.faults source.new }
    ensures tells { IsTrue (S.tells source.old) → IsTrue (S.tells source.new) }
{
    let mut script = Vec::new(alloc);
    let mut room = [0u8; ROOM];
    while script.len() <= MOST_SCRIPT {
        let most = (MOST_SCRIPT + 1 - script.len()).min(ROOM);
        match source.pull(&mut room[..most]) {
            Pull::Got(count) => script.extend_from_slice(&room[..count])?,
            Pull::End => return Ok(script),
            Pull::Failed => return Err(ReadErr::Fault),
        }
    }
    Err(ReadErr::Long)
}
