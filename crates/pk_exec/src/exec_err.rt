use pk_values::{Memory, Refusal};
use pk_world::StoreErr;
use std::alloc::{AllocError, AllocFailed};

/// Why a statement of a transaction isn't done.
#[derive(Debug, Drop)]
pub enum ExecErr {
    /// It is refused.
    Refused(Refusal),
    /// The disk failed.
    Disk,
    /// The files hold something else than what was put there.
    Changed,
    /// Memory ran out.
    Memory,
}

impl From<Memory> for ExecErr {
    ghost use Rattle.std.specs.Prelude.{◌≡◌};
    ghost use Rattle.pk_exec.specs.declared.exec_err.ExecErr.TheVariants as causes;

    ghost from_gives = { λ _ e. e ≡ causes.Memory };

    fn from(_error: Memory) -> ExecErr {
        ExecErr::Memory
    }
}

impl From<AllocError> for ExecErr {
    ghost use Rattle.std.specs.Prelude.{◌≡◌};
    ghost use Rattle.pk_exec.specs.declared.exec_err.ExecErr.TheVariants as causes;

    ghost from_gives = { λ _ e. e ≡ causes.Memory };

    fn from(_error: AllocError) -> ExecErr {
        ExecErr::Memory
    }
}

impl<T: Drop> From<AllocFailed<T>> for ExecErr {
    ghost use Rattle.std.specs.Prelude.{◌≡◌};
    ghost use Rattle.pk_exec.specs.declared.exec_err.ExecErr.TheVariants as causes;

    ghost from_gives = { λ _ e. e ≡ causes.Memory };

    fn from(_error: AllocFailed<T>) -> ExecErr {
        ExecErr::Memory
    }
}

impl From<StoreErr> for ExecErr {
    ghost use Rattle.std.specs.Prelude.{◌≡◌};
    ghost use Rattle.pk_exec.specs.Answers.{exec_cause};

    ghost from_gives = { λ s e. e ≡ exec_cause s };

    fn from(error: StoreErr) -> ExecErr {
        match error {
            StoreErr::Disk => ExecErr::Disk,
            StoreErr::Changed => ExecErr::Changed,
            StoreErr::Memory => ExecErr::Memory,
        }
    }
}
