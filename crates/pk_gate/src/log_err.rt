use pk_values::Memory;
use pk_world::Failed;
use std::alloc::{AllocError, AllocFailed};

/// Why a log couldn't be opened.
#[derive(Clone, Copy, Debug, PartialEq, Eq)]
pub enum LogErr {
    /// The disk failed.
    Disk,
    /// The file holds no list of payloads.
    Bad,
    /// Memory ran out.
    Memory,
}

impl From<Failed> for LogErr {
    ghost use Rattle.std.specs.Prelude.{◌≡◌};
    ghost use Rattle.pk_gate.specs.declared.log_err.LogErr.TheVariants as causes;

    ghost from_gives = { λ _ e. e ≡ causes.Disk };

    fn from(_error: Failed) -> LogErr {
        LogErr::Disk
    }
}

impl From<Memory> for LogErr {
    ghost use Rattle.std.specs.Prelude.{◌≡◌};
    ghost use Rattle.pk_gate.specs.declared.log_err.LogErr.TheVariants as causes;

    ghost from_gives = { λ _ e. e ≡ causes.Memory };

    fn from(_error: Memory) -> LogErr {
        LogErr::Memory
    }
}

impl From<AllocError> for LogErr {
    ghost use Rattle.std.specs.Prelude.{◌≡◌};
    ghost use Rattle.pk_gate.specs.declared.log_err.LogErr.TheVariants as causes;

    ghost from_gives = { λ _ e. e ≡ causes.Memory };

    fn from(_error: AllocError) -> LogErr {
        LogErr::Memory
    }
}

impl<T: Drop> From<AllocFailed<T>> for LogErr {
    ghost use Rattle.std.specs.Prelude.{◌≡◌};
    ghost use Rattle.pk_gate.specs.declared.log_err.LogErr.TheVariants as causes;

    ghost from_gives = { λ _ e. e ≡ causes.Memory };

    fn from(_error: AllocFailed<T>) -> LogErr {
        LogErr::Memory
    }
}
