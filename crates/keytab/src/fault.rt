ghost use Rattle.std.specs.Prelude.{◌≡◌};
ghost use Rattle.keytab.specs.Faults.{fault_of};

use pk_run::Status;
use thiserror::Error;

/// The line on standard error that says why a run ended.
#[derive(Debug, Drop, Error)]
pub enum Fault {
    #[error("keytab: usage: keytab memory")]
    Usage,
    #[error("keytab: script can't be read")]
    Script,
    #[error("keytab: replies can't be written")]
    Replies,
    #[error("keytab: out of memory")]
    OutOfMemory,
    #[error("keytab: script above 4194304 bytes")]
    LongScript,
}

/// The fault that a status stands for; none where the script was run to its end.
pub fn fault_of(status: Status) -> Option<Fault>
    ensures { result ≡ fault_of status }
{
    match status {
        Status::Done | Status::Refused => None,
        Status::Usage => Some(Fault::Usage),
        Status::ScriptFault => Some(Fault::Script),
        Status::ReplyFault => Some(Fault::Replies),
        Status::OutOfMemory => Some(Fault::OutOfMemory),
        Status::LongScript => Some(Fault::LongScript),
    }
}
