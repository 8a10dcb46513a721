use pk_values::{Memory, Refusal};
use std::alloc::{AllocError, AllocFailed};

/// Why an INSERT isn't done.
#[derive(Debug, Drop)]
pub enum InsertErr {
    /// It is refused.
    Refused(Refusal),
    /// Memory ran out.
    Memory,
}

impl From<Memory> for InsertErr {
    ghost use Rattle.std.specs.Prelude.{◌≡◌};
    ghost use Rattle.pk_exec.specs.declared.insert_err.InsertErr.TheVariants as causes;

    ghost from_gives = { λ _ e. e ≡ causes.Memory };

    fn from(_error: Memory) -> InsertErr {
        InsertErr::Memory
    }
}

impl From<AllocError> for InsertErr {
    ghost use Rattle.std.specs.Prelude.{◌≡◌};
    ghost use Rattle.pk_exec.specs.declared.insert_err.InsertErr.TheVariants as causes;

    ghost from_gives = { λ _ e. e ≡ causes.Memory };

    fn from(_error: AllocError) -> InsertErr {
        InsertErr::Memory
    }
}

impl<T: Drop> From<AllocFailed<T>> for InsertErr {
    ghost use Rattle.std.specs.Prelude.{◌≡◌};
    ghost use Rattle.pk_exec.specs.declared.insert_err.InsertErr.TheVariants as causes;

    ghost from_gives = { λ _ e. e ≡ causes.Memory };

    fn from(_error: AllocFailed<T>) -> InsertErr {
        InsertErr::Memory
    }
}
