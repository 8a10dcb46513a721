use pk_values::Memory;
use std::alloc::{AllocError, AllocFailed};

/// Why no transversals are told.
#[derive(Clone, Copy, Debug, PartialEq, Eq)]
pub enum TransErr {
    /// The first `edge` of the minimal edges, in their order, have more minimal transversals than the
    /// limit, and no fewer of them have.
    TooMany { edge: u32 },
    /// Memory ran out.
    Memory,
}

impl From<Memory> for TransErr {
    ghost use Rattle.std.specs.Prelude.{◌≡◌};
    ghost use Rattle.pk_transversal.specs.declared.trans_err.TransErr.TheVariants as causes;

    ghost from_gives = { λ _ e. e ≡ causes.Memory };

    fn from(_error: Memory) -> TransErr {
        TransErr::Memory
    }
}

impl From<AllocError> for TransErr {
    ghost use Rattle.std.specs.Prelude.{◌≡◌};
    ghost use Rattle.pk_transversal.specs.declared.trans_err.TransErr.TheVariants as causes;

    ghost from_gives = { λ _ e. e ≡ causes.Memory };

    fn from(_error: AllocError) -> TransErr {
        TransErr::Memory
    }
}

impl<T: Drop> From<AllocFailed<T>> for TransErr {
    ghost use Rattle.std.specs.Prelude.{◌≡◌};
    ghost use Rattle.pk_transversal.specs.declared.trans_err.TransErr.TheVariants as causes;

    ghost from_gives = { λ _ e. e ≡ causes.Memory };

    fn from(_error: AllocFailed<T>) -> TransErr {
        TransErr::Memory
    }
}
