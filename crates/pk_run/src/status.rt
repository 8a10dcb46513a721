ghost use Rattle.std.specs.Prelude.{◌≡◌};
ghost use Rattle.pk_run.specs.Status.{code_of};

/// How a run ended.
#[derive(Clone, Copy, Debug, PartialEq, Eq)]
pub enum Status {
    /// The script was run to its end, and no reply is a refusal.
    Done,
    /// The script was run to its end, and some reply is a refusal.
    Refused,
    /// The words ask for nothing that there is.
    Usage,
    /// The source failed.
    ScriptFault,
    /// The sink failed.
    ReplyFault,
    /// Memory ran out.
    OutOfMemory,
    /// The script is longer than a script may be.
    LongScript,
}

impl Status {
    /// The program's exit status: 0 for `Done`, 1 `Refused`, 2 `Usage`, 3 `ScriptFault`,
    /// 4 `ReplyFault`, 7 `OutOfMemory`, 8 `LongScript`.
    pub fn code(self) -> u8
        ensures { result ≡ code_of self }
    {
        match self {
            Status::Done => 0,
            Status::Refused => 1,
            Status::Usage => 2,
            Status::ScriptFault => 3,
            Status::ReplyFault => 4,
            Status::OutOfMemory => 7,
            Status::LongScript => 8,
        }
    }
}
